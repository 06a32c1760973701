// Why an admissible table gives best answers, and why built tables are admissible: laws in proofs/, and no code.
#![tactic(auto)]

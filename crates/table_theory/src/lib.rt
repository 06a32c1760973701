// The theory of the tables that are built: definitions in specs/, laws in proofs/, and no code.
#![tactic(auto)]

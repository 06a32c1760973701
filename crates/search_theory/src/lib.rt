// The search and the levels of a table over any moves: definitions in specs/, laws in proofs/, and no code.
#![tactic(auto)]

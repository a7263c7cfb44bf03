// The season sheet: definitions in specs/, laws in proofs/. It has no code.
#![tactic(auto)]

// Several scripts in one frame: definitions in specs/, laws in proofs/. It has no code.
#![tactic(auto)]

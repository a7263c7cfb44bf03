// Runs that go frame by frame: definitions in specs/, laws in proofs/. It has no code.
#![tactic(auto)]

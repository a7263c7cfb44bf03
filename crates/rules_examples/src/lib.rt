// An example of the rules that takes long to compute, in proofs/. It has no code.
#![tactic(auto)]

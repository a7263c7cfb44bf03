// The run as a machine over the rows, and that it does what the documents' run does: definitions in specs/, laws in proofs/. It has no
// code.
#![tactic(auto)]

// No code: that every line listed is read back, and that no two instructions share a line, in proofs.
#![tactic(auto)]

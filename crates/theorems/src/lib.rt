// No code: theorems that no code imports, in proofs; what is said of two processors, in specs.
#![tactic(auto)]

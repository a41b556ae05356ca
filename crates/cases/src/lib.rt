// The worked cases are theorems, in specs/ and proofs/: no code stands here.
#![tactic(auto)]

// Theorems over the machine; no function.
#![tactic(auto)]

// Theorems about the rules; there is no code here.
#![tactic(auto)]

// Demand 3, of the calls that fill: theorems only.
#![tactic(auto)]

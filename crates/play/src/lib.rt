// Play by the calls: each listed move is made, and best moves win in time. Theorems only.
#![tactic(auto)]

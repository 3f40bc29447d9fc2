// A position that was made of an accepted board shows that board: theorems only.
#![tactic(auto)]

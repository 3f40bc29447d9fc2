// What `desk` answers: each line of the input, however it comes in blocks; and after a fill the true entries. Theorems only.
#![tactic(auto)]

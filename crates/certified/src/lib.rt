// What the check of a tablebase certifies: theorems about `check` only. The functions are in `check_calls` and below.
#![tactic(auto)]

// Calls that undo each other: ranks and boards, frames and boards. Theorems about the calls only.
#![tactic(auto)]

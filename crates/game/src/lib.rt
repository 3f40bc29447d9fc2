// Who wins and in how many plies, for any game of two sides that move in turn: definitions and theorems only. Nothing here is of morris.
#![tactic(auto)]

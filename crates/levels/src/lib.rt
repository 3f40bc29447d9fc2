// What a level of `sweeping` leaves of a pair's tablebase, in the pair's game. No code.
#![tactic(auto)]

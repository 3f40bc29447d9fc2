// The plies of an image are the images of the plies, and so images of a position have one outcome, in the whole game and in the game of a pair of
// tables. No code.
#![tactic(auto)]

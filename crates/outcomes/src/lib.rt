// The whole game of a tablebase and the game of a pair of tables: definitions and laws only. The functions are in `probing` and `solver`.
#![tactic(auto)]

// Plies by the rules: definitions and laws only. The functions stand above, in `plies`, `making` and `listing`.
#![tactic(auto)]

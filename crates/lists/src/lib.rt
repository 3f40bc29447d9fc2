// The list functions that the definitions of the other crates use, and their laws. No code.
#![tactic(auto)]

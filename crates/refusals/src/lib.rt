// Where a call is turned back: document 01's table, with 15 and 20 of document 02, as definitions. The tests stand above, by subject.
#![tactic(auto)]

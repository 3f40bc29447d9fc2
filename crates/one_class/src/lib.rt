// What the calls say of classes: theorems only.
#![tactic(auto)]

// The starred cases of document 01 and the frames of its example, by computation: theorems only.
#![tactic(auto)]

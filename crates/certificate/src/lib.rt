// The certificate of a tablebase: when an entry is right by the entries of its successors, and the first that is not. No code: definitions and
// theorems only.
#![tactic(auto)]

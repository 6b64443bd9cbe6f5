// The calls agree: theorems only.
#![tactic(auto)]

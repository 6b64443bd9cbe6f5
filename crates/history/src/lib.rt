// What requests changed: comparisons of today's definitions with older ones; no code. An old definition is not rebased: where a later
// request would have to change what a comparison says, it is taken out, and that request's note names the last commit that proved it.
#![tactic(auto)]

// The six-volumes of the rows of a filling; laws only.
#![tactic(auto)]

// Places of points and cuts, and the six-volume of a tetrahedron.
#![tactic(auto)]

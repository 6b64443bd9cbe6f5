// Labels of samples by a band, what state bytes say of their points, and which cuts violate an end of
// their edge.
#![tactic(auto)]

pub mod codes;
pub mod label;
pub mod scan;
pub mod violation;

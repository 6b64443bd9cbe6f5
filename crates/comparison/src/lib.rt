// Tables compared with what a record states, entry by entry.
#![tactic(auto)]

pub mod tables;

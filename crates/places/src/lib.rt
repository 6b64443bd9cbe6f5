// Places of lattice points, of cuts and of moved points; the place call.
#![tactic(auto)]

pub mod locate;
pub mod points;
pub mod stored;

pub use stored::Stored;

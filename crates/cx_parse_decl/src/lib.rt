//! From the tokens of a unit to its tree, or the place where they cease to be one.
#![tactic(auto)]

mod functions;
mod laws;
mod unit;

pub use laws::{laws_of_functions, one_unit};
pub use unit::parse_unit;

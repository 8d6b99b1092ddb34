//! From the tree of a unit to its plain unit: the stages behind the grammar, and what they keep.
#![tactic(auto)]

mod definitions;
mod faults;
mod forms;
mod laws;
mod names;
mod resolution;
mod translation;

pub use laws::{forms_of_a_unit, names_of_a_unit};
pub use translation::{Translation, translate_unit};

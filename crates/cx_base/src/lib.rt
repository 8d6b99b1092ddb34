//! The plain data that every layer speaks of: places in a unit, the numbers that name its parts, the kinds
//! of fault, the limits, and why a call stops.
#![tactic(auto)]

mod fault;
mod kind;
mod limit;
mod list;
mod numbers;
mod place;
mod places;
mod stop;
mod text;
mod value;

pub use fault::Fault;
pub use kind::Kind;
pub use limit::Limit;
pub use list::List;
pub use numbers::{ArgsId, DeclId, FormulaId, NodeId, TermId};
pub use place::Place;
pub use places::Places;
pub use stop::Stop;
pub use text::Text;
pub use value::{Scalar, Value};

#[cfg(test)]
mod tests;

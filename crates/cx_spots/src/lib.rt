//! Where a unit is read, and what is read there without going into a construct: pieces by their classes, scalars and
//! qualified names.
#![tactic(auto)]

mod class;
mod context;
mod index;
mod laws;
mod misfits;
mod names;
mod operators;
mod piece;
mod scalars;
mod spot;

pub use class::Class;
pub use context::Context;
pub use index::{index_of, spot_at};
pub use laws::spelled_tokens;
pub use misfits::unsupported;
pub use names::qualified_names;
pub use piece::{Half, Piece};
pub use scalars::{scalar_behind, scalar_core};
pub use spot::{Cored, Read, Spot};

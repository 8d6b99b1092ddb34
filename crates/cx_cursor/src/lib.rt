//! Where a unit is read: a cursor over its tokens, which is the state of a reader, and the pieces that it gives.
#![tactic(auto)]

mod class;
mod cursor;
mod kinds;
mod left;
mod memory;
mod operators;
mod piece;

pub use class::Class;
pub use cursor::Cursor;
pub use memory::boxed;
pub use piece::{Half, Piece};

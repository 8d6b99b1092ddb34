//! The parser of statements ([stmt.stmt]).
#![tactic(auto)]

mod auto;
mod initialiser;
mod openings;
mod parts;
mod simple;
mod statement;
mod variables;

pub use auto::auto_after;
pub use initialiser::init;
pub use parts::assertion;
pub use statement::{block, stmt};

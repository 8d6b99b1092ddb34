//! The grammar of the language ([gram]): its trees, and every production.
#![tactic(auto)]

mod calling;

pub use calling::Calling;

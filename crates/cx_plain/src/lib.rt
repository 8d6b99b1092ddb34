//! Plain units: functions without templates, names or overloads to resolve. Their one text, their typing and what
//! they do.
#![tactic(auto)]

mod body;
mod laws;
mod numbered;
mod operators;
mod pieces;
mod printer;
mod tree;

pub use laws::{arithmetic, one_text, steps, typed_is_defined};
pub use operators::{BinaryOperator, UnaryOperator};
pub use printer::print;
pub use tree::{Expr, Function, Global, PlainUnit, Stmt, Struct};

#[cfg(test)]
mod tests;

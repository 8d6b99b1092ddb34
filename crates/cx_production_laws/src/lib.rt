//! The laws of the grammar. Each is the contract of a function that does nothing.
#![tactic(auto)]

mod expressions;
mod numbers;
mod tokens;
mod units;

pub use expressions::{laws_of_arguments, laws_of_clauses, laws_of_expressions, laws_of_types};
pub use numbers::{numbers_of_expressions, numbers_of_statements};
pub use tokens::{bounds_of_numbers, whole_tokens};
pub use units::{laws_of_declarations, laws_of_statements, laws_of_units};

//! The grammar: what it is for tokens to be a whole tree or the beginning of one, and its laws.
#![tactic(auto)]

mod laws;
mod text;

pub use laws::{
    laws_of_clauses, laws_of_declarations, laws_of_expressions, laws_of_statements, laws_of_types,
    laws_of_units, numbers_of_clauses, numbers_of_expressions, numbers_of_types,
};
pub use text::{expressions_as_printed, operands_as_printed, postfixes_as_printed};

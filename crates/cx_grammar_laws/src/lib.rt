//! Further laws of the grammar. Each is the contract of a function that does nothing.
#![tactic(auto)]

mod examples;
mod language;
mod numbers;
mod printed;
mod requirements;

pub use examples::requires_expressions_as_meant;
pub use language::{expressions_of_the_language, units_of_the_language};
pub use numbers::{numbers_of_declarations, numbers_of_statements, numbers_of_units};
pub use printed::{
    arguments_as_printed, fields_and_functions_as_printed, parameters_as_printed,
    requirements_as_printed, requires_expressions_as_printed, statements_as_printed,
    variables_and_functions_as_printed, variables_as_printed,
};
pub use requirements::{
    laws_of_requirements, laws_of_requires_expressions, numbers_of_requirements,
    numbers_of_requires_expressions,
};

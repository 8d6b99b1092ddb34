//! The machine of objects on which a body runs, whether it is source or plain: values, arithmetic, places, what a run
//! comes to, and the lives of objects. There are definitions and their laws; a program that runs stands elsewhere.
#![tactic(auto)]

mod laws;
mod operators;

pub use laws::{arithmetic, objects, order, values_of_types};
pub use operators::{BinaryOperator, Comparison, UnaryOperator, Update};

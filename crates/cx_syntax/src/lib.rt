//! How a grammar is read: the state of a reader, why it stops, where a production stands, and what is built of
//! productions.
#![tactic(auto)]

mod context;
mod operators;
mod stopped;

pub use context::{Context, OpenLists};
pub use operators::{AssignmentOperator, BinaryOperator, PostfixOperator, UnaryOperator};
pub use stopped::Stopped;

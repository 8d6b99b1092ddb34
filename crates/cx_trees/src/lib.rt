//! The syntax trees of expressions and types: each node with its number and its place, its parts in the order of the text.
#![tactic(auto)]

mod expression;
mod places;
mod requirements;
mod types;

pub use expression::{Expr, TemplateArgument};
pub use requirements::{Constraint, LocalParameter, Requirement};
pub use types::{Core, TypeSyn};

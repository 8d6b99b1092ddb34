//! The syntax trees of expressions and types: each node with its number and its place, its parts in the order of the text.
#![tactic(auto)]

mod expression;
mod operators;
mod places;
mod types;
mod walk;

pub use expression::{Expr, TemplateArgument};
pub use operators::{AssignmentOperator, BinaryOperator, PostfixOperator, UnaryOperator};
pub use places::{walk_arguments, walk_expr, walk_exprs, walk_type};
pub use types::{Core, TypeSyn};
pub use walk::{Walk, step};

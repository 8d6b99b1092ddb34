//! Reads expressions ([expr]), types ([dcl.type]), template arguments ([temp.arg]), clauses of a requires ([temp.pre]) and
//! requires-expressions ([expr.prim.req]): a function for each production, which reads exactly what the production has.
#![tactic(auto)]

mod arguments;
mod below;
mod binary;
mod clauses;
mod cores;
mod expressions;
mod lists;
mod names;
mod operands;
mod parameters;
mod postfix;
mod precedence;
mod primaries;
mod requirements;
mod scalars;
mod typed;
mod types;

pub use arguments::argument_list;
pub use below::expr_below;
pub use clauses::clause;
pub use cores::{PlacedCore, core, head_core, placed};
pub use expressions::{expr, expr_of};
pub use lists::expr_list;
pub use names::member_names;
pub use operands::Operand;
pub use precedence::{EXPRESSION_LEVEL, LOGICAL_OR_LEVEL, UNARY_LEVEL};
pub use requirements::{constraint, requires_expr};
pub use scalars::{flag, long_core, scalar_after, scalar_at, scalar_core, scalar_of_word};
pub use typed::{after_head, list_after};
pub use types::{type_after, type_id};

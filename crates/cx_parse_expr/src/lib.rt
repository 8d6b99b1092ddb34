//! The parsers of expressions, types and requires-clauses: each reads its production as far as it goes.
#![tactic(auto)]

mod argument;
mod arguments;
mod ask;
mod binary;
mod calls;
mod clause;
mod deeper;
mod engine;
mod expression;
mod lists;
mod parse;
mod postfix;
mod primary;
mod types;
mod unary;

pub use calls::{
    read_argument_list, read_behind_core, read_behind_head, read_clause, read_core, read_expr,
    read_expr_behind, read_exprs_until, read_tail, read_type,
};
pub use parse::{Ids, parse_clause, parse_expr, parse_type};
pub use primary::Calling;
pub use types::type_behind;

//! The plain language: functions without templates, names or overloads to resolve. Its trees, their one text, their
//! typing, and what they do on the machine of objects.
#![tactic(auto)]

mod expression;
mod expressions;
mod laws;
mod lookup;
mod names;
mod printer;
mod statement;
mod statements;
mod types;
mod unit;
mod units;

pub use expression::Expr;
pub use laws::bounds;
pub use printer::print;
pub use statement::Stmt;
pub use types::{Declared, Passing, Returns, Type};
pub use unit::{Field, Global, Literal, PlainFn, PlainFunction, PlainUnit, Struct};

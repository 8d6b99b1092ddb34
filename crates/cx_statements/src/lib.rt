//! The trees of statements, declarations and units: one variant for each production.
#![tactic(auto)]

mod declaration;
mod declarations;
mod functions;
mod optional;
mod places;
mod statement;
mod statements;
mod structs;
mod templates;
mod unit;
mod variables;

pub use declaration::{
    Alias, Constant, Decl, FunctionDecl, Member, Parameter, Specifiers, Struct, TemplateParameter,
    Templated,
};
pub use statement::{Assertion, Auto, Constraint, ForInit, Init, Stmt, Variable, WrittenType};
pub use unit::Unit;

//! The syntax trees of statements, declarations and units: one variant for each production, each node with its number and
//! its place.
#![tactic(auto)]

mod declaration;
mod places;
mod statement;

pub use declaration::{
    Alias, Constant, Decl, FunctionDecl, Member, Parameter, Specifiers, Struct, TemplateParameter,
    Templated, Unit,
};
pub use statement::{Assertion, Auto, ForHead, Init, Opening, Stmt, Variable, WrittenType};

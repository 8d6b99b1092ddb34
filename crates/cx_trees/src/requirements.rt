use crate::expression::{Expr, TemplateArgument};
use crate::types::TypeSyn;
use cx_base::{NodeId, Place};

/// A local parameter of a requires-expression ([expr.prim.req]). Its place is that of its name, or of its type where
/// it has none.
#[derive(Drop)]
#[cycle(syntax)]
pub struct LocalParameter<'s> {
    pub node: NodeId,
    pub at: Place,
    pub of: Box<TypeSyn<'s>>,
    pub name: Option<&'s str>,
}

/// A requirement ([expr.prim.req.general]). Its place is that of its first token.
#[derive(Drop)]
#[cycle(syntax)]
pub enum Requirement<'s> {
    /// An expression that is to be valid ([expr.prim.req.simple]).
    Simple {
        node: NodeId,
        at: Place,
        expr: Box<Expr<'s>>,
    },
    /// `typename` and a type that is to be valid ([expr.prim.req.type]).
    OfType {
        node: NodeId,
        at: Place,
        of: Box<TypeSyn<'s>>,
    },
    /// An expression in braces, and a constraint of its type or none ([expr.prim.req.compound]).
    Compound {
        node: NodeId,
        at: Place,
        expr: Box<Expr<'s>>,
        constraint: Option<Box<Constraint<'s>>>,
    },
    /// `requires` and an expression that is to be true ([expr.prim.req.nested]).
    Nested {
        node: NodeId,
        at: Place,
        expr: Box<Expr<'s>>,
    },
}

/// A concept that constrains a type, with template arguments or none ([temp.param]). Its place is that of its name.
#[derive(Drop)]
#[cycle(syntax)]
pub struct Constraint<'s> {
    pub node: NodeId,
    pub at: Place,
    pub name: &'s str,
    pub arguments: Vec<TemplateArgument<'s>>,
}

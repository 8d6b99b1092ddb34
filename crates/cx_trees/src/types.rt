use crate::expression::{Expr, TemplateArgument};
use cx_base::{NodeId, Place, Scalar};

/// A type as it is written ([dcl.type], [dcl.ref]). Its place is that of its first token.
#[derive(Drop)]
#[cycle(syntax)]
pub struct TypeSyn<'s> {
    pub node: NodeId,
    pub at: Place,
    pub constant: bool,
    /// Where the core begins, after a leading `const`.
    pub core_at: Place,
    pub core: Core<'s>,
    pub reference: bool,
}

/// A type without its `const` and `&`.
#[derive(Drop)]
#[cycle(syntax)]
pub enum Core<'s> {
    Scalar(Scalar),
    Void,
    /// The name of a type.
    TypeName(&'s str),
    /// A class template's name with arguments ([temp.names]).
    Class(&'s str, Vec<TemplateArgument<'s>>),
    /// `typename`, a type, and names after `::` ([temp.res]).
    MemberType(Box<TypeSyn<'s>>, Vec<&'s str>),
    /// `decltype` of an expression ([dcl.type.decltype]).
    Decltype(Box<Expr<'s>>),
}

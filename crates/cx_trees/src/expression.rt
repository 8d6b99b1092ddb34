use crate::requirements::{LocalParameter, Requirement};
use crate::types::TypeSyn;
use cx_base::{NodeId, Place, Scalar};
use cx_syntax::{AssignmentOperator, BinaryOperator, PostfixOperator, UnaryOperator};

/// An expression ([expr]). Its place is that of its first token.
#[derive(Drop)]
#[cycle(syntax)]
pub enum Expr<'s> {
    /// A literal of a type ([lex.icon]).
    Int {
        node: NodeId,
        at: Place,
        scalar: Scalar,
        value: u64,
    },
    /// `true` or `false` ([lex.bool]).
    Bool {
        node: NodeId,
        at: Place,
        value: bool,
    },
    /// A name alone ([expr.prim.id.unqual]).
    Name {
        node: NodeId,
        at: Place,
        name: &'s str,
    },
    /// A name with template arguments: a concept-id, or a function template that is called ([temp.names]).
    Template {
        node: NodeId,
        at: Place,
        name: &'s str,
        arguments: Vec<TemplateArgument<'s>>,
    },
    /// A type, and names after `::` ([expr.prim.id.qual]).
    Qualified {
        node: NodeId,
        at: Place,
        head: Box<TypeSyn<'s>>,
        names: Vec<&'s str>,
    },
    /// A type, and a list in braces ([expr.type.conv]).
    List {
        node: NodeId,
        at: Place,
        of: Box<TypeSyn<'s>>,
        items: Vec<Expr<'s>>,
    },
    /// An expression in parentheses ([expr.prim.paren]).
    Group {
        node: NodeId,
        at: Place,
        inner: Box<Expr<'s>>,
    },
    /// `static_cast` ([expr.static.cast]).
    StaticCast {
        node: NodeId,
        at: Place,
        to: Box<TypeSyn<'s>>,
        operand: Box<Expr<'s>>,
    },
    /// `__is_same`: whether two types are one.
    IsSame {
        node: NodeId,
        at: Place,
        left: Box<TypeSyn<'s>>,
        right: Box<TypeSyn<'s>>,
    },
    /// `__out`: prints a value.
    Out {
        node: NodeId,
        at: Place,
        operand: Box<Expr<'s>>,
    },
    /// A requires-expression ([expr.prim.req]).
    Requires {
        node: NodeId,
        at: Place,
        parameters: Vec<LocalParameter<'s>>,
        requirements: Vec<Requirement<'s>>,
    },
    /// A member of an object ([expr.ref]).
    Member {
        node: NodeId,
        at: Place,
        object: Box<Expr<'s>>,
        name: &'s str,
    },
    /// A call ([expr.call]). What is called is a `Name`, a `Template` or a `Member`.
    Call {
        node: NodeId,
        at: Place,
        callee: Box<Expr<'s>>,
        arguments: Vec<Expr<'s>>,
    },
    /// `++` or `--` after an operand ([expr.post.incr]).
    Postfix {
        node: NodeId,
        at: Place,
        operator: PostfixOperator,
        operand: Box<Expr<'s>>,
    },
    /// A prefix operator before an operand ([expr.unary]).
    Unary {
        node: NodeId,
        at: Place,
        operator: UnaryOperator,
        operand: Box<Expr<'s>>,
    },
    /// A binary operator that is no assignment ([expr.mul] to [expr.log.or]).
    Binary {
        node: NodeId,
        at: Place,
        operator: BinaryOperator,
        left: Box<Expr<'s>>,
        right: Box<Expr<'s>>,
    },
    /// `?` and `:` ([expr.cond]).
    Conditional {
        node: NodeId,
        at: Place,
        condition: Box<Expr<'s>>,
        then: Box<Expr<'s>>,
        otherwise: Box<Expr<'s>>,
    },
    /// An assignment ([expr.ass]).
    Assignment {
        node: NodeId,
        at: Place,
        operator: AssignmentOperator,
        target: Box<Expr<'s>>,
        value: Box<Expr<'s>>,
    },
}

/// A template argument ([temp.arg]).
#[derive(Drop)]
#[cycle(syntax)]
pub enum TemplateArgument<'s> {
    Type(Box<TypeSyn<'s>>),
    Value(Box<Expr<'s>>),
}

use cx_base::{NodeId, Place};
use cx_trees::{Constraint, Expr, TypeSyn};

/// A statement ([stmt.stmt]). Its place is that of its first token.
#[derive(Drop)]
pub enum Stmt<'s> {
    /// `;` alone ([stmt.expr]).
    Empty {
        node: NodeId,
        at: Place,
    },
    /// Statements in braces ([stmt.block]).
    Block {
        node: NodeId,
        at: Place,
        statements: Vec<Stmt<'s>>,
    },
    /// A declaration of `static_assert` ([stmt.dcl]).
    StaticAssert(Box<Assertion<'s>>),
    /// `break` ([stmt.break]).
    Break {
        node: NodeId,
        at: Place,
    },
    /// `continue` ([stmt.cont]).
    Continue {
        node: NodeId,
        at: Place,
    },
    /// `return`, with a value or none ([stmt.return]).
    Return {
        node: NodeId,
        at: Place,
        value: Option<Box<Expr<'s>>>,
    },
    /// `if`, with an `else` or none ([stmt.if]).
    If {
        node: NodeId,
        at: Place,
        is_constexpr: bool,
        condition: Box<Expr<'s>>,
        then: Box<Stmt<'s>>,
        otherwise: Option<Box<Stmt<'s>>>,
    },
    /// `while` ([stmt.while]).
    While {
        node: NodeId,
        at: Place,
        condition: Box<Expr<'s>>,
        body: Box<Stmt<'s>>,
    },
    /// `for` ([stmt.for]).
    For {
        node: NodeId,
        at: Place,
        head: Box<ForHead<'s>>,
        body: Box<Stmt<'s>>,
    },
    /// A declaration of a variable ([stmt.dcl]).
    Variable(Box<Variable<'s>>),
    /// An expression and `;` ([stmt.expr]).
    Expression {
        node: NodeId,
        at: Place,
        expr: Box<Expr<'s>>,
    },
}

/// A declaration of a variable ([dcl.dcl]). Its place is that of its name.
#[derive(Drop)]
pub struct Variable<'s> {
    pub node: NodeId,
    pub at: Place,
    pub is_constexpr: bool,
    pub written: WrittenType<'s>,
    pub name: &'s str,
    pub init: Init<'s>,
}

/// The type that a declaration is written with ([dcl.type]).
#[derive(Drop)]
pub enum WrittenType<'s> {
    Type(Box<TypeSyn<'s>>),
    Auto(Box<Auto<'s>>),
}

/// `auto` with its `const`, its constraint and its `&` ([dcl.spec.auto]). Its place is that of the first token of these.
#[derive(Drop)]
pub struct Auto<'s> {
    pub node: NodeId,
    pub at: Place,
    pub constant: bool,
    pub constraint: Option<Box<Constraint<'s>>>,
    pub reference: bool,
}

/// An initialiser ([dcl.init]).
#[derive(Drop)]
pub enum Init<'s> {
    /// After `=`.
    Value(Box<Expr<'s>>),
    /// In braces ([dcl.init.list]).
    List {
        node: NodeId,
        at: Place,
        items: Vec<Expr<'s>>,
    },
}

/// A variable or an expression, up to its `;`.
#[derive(Drop)]
pub enum Opening<'s> {
    Variable(Box<Variable<'s>>),
    Expression(Box<Expr<'s>>),
}

/// The head of a `for` ([stmt.for]): what stands first, the condition and the step.
#[derive(Drop)]
pub struct ForHead<'s> {
    pub init: Option<Opening<'s>>,
    pub condition: Option<Box<Expr<'s>>>,
    pub step: Option<Box<Expr<'s>>>,
}

/// `static_assert` with its condition, and a text or none ([dcl.pre]).
#[derive(Drop)]
pub struct Assertion<'s> {
    pub node: NodeId,
    pub at: Place,
    pub condition: Box<Expr<'s>>,
    /// The string as it is written, with its quotes.
    pub message: Option<&'s str>,
}

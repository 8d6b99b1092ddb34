use cx_base::{NodeId, Place};
use cx_tree::{Expr, TemplateArgument, TypeSyn};

/// A statement ([stmt.stmt]). Its place is that of its first token.
#[derive(Debug, Drop)]
pub enum Stmt<'s> {
    /// `;` alone ([stmt.expr]).
    Empty {
        node: NodeId,
        at: Place,
    },
    /// Statements in braces ([stmt.block]).
    Block {
        node: NodeId,
        at: Place,
        statements: Vec<Stmt<'s>>,
    },
    /// A declaration of `static_assert` ([stmt.dcl]).
    StaticAssert(Assertion<'s>),
    /// `break` ([stmt.break]).
    Break {
        node: NodeId,
        at: Place,
    },
    /// `continue` ([stmt.cont]).
    Continue {
        node: NodeId,
        at: Place,
    },
    /// `return`, with a value or none ([stmt.return]).
    Return {
        node: NodeId,
        at: Place,
        value: Option<Expr<'s>>,
    },
    /// `if`, with an `else` or none ([stmt.if]).
    If {
        node: NodeId,
        at: Place,
        is_constexpr: bool,
        condition: Expr<'s>,
        then: Box<Stmt<'s>>,
        otherwise: Option<Box<Stmt<'s>>>,
    },
    /// `while` ([stmt.while]).
    While {
        node: NodeId,
        at: Place,
        condition: Expr<'s>,
        body: Box<Stmt<'s>>,
    },
    /// `for` ([stmt.for]).
    For {
        node: NodeId,
        at: Place,
        init: ForInit<'s>,
        condition: Option<Expr<'s>>,
        step: Option<Expr<'s>>,
        body: Box<Stmt<'s>>,
    },
    /// A declaration of a variable ([stmt.dcl]).
    Variable(Variable<'s>),
    /// An expression and `;` ([stmt.expr]).
    Expression {
        node: NodeId,
        at: Place,
        expr: Expr<'s>,
    },
}

/// A declaration of a variable ([dcl.dcl]). Its place is that of its name.
#[derive(Debug, Drop)]
pub struct Variable<'s> {
    pub node: NodeId,
    pub at: Place,
    pub is_constexpr: bool,
    pub written: WrittenType<'s>,
    pub name: &'s str,
    pub init: Init<'s>,
}

/// The type that a declaration is written with ([dcl.type]).
#[derive(Debug, Drop)]
pub enum WrittenType<'s> {
    Type(TypeSyn<'s>),
    Auto(Auto<'s>),
}

/// `auto` with its `const`, its constraint and its `&` ([dcl.spec.auto]). Its place is that of the first token of these.
#[derive(Debug, Drop)]
pub struct Auto<'s> {
    pub node: NodeId,
    pub at: Place,
    pub constant: bool,
    pub constraint: Option<Constraint<'s>>,
    pub reference: bool,
}

/// A concept that constrains a type, with template arguments or none ([temp.param]). Its place is that of its name.
#[derive(Debug, Drop)]
pub struct Constraint<'s> {
    pub node: NodeId,
    pub at: Place,
    pub name: &'s str,
    /// Empty where there is no list of them, since a list has at least one.
    pub arguments: Vec<TemplateArgument<'s>>,
}

/// An initialiser ([dcl.init]).
#[derive(Debug, Drop)]
pub enum Init<'s> {
    /// Behind `=`.
    Value(Expr<'s>),
    /// In braces ([dcl.init.list]).
    List {
        node: NodeId,
        at: Place,
        items: Vec<Expr<'s>>,
    },
}

/// What stands first in the head of a `for` ([stmt.for]).
#[derive(Debug, Drop)]
pub enum ForInit<'s> {
    Nothing,
    Variable(Variable<'s>),
    Expression(Expr<'s>),
}

/// `static_assert` with its condition, and a text or none ([dcl.pre]).
#[derive(Debug, Drop)]
pub struct Assertion<'s> {
    pub node: NodeId,
    pub at: Place,
    pub condition: Expr<'s>,
    /// The string as it is written, with its quotes.
    pub message: Option<&'s str>,
}

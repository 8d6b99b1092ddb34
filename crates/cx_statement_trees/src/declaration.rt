use crate::statement::{Assertion, Init, Stmt, WrittenType};
use cx_base::{NodeId, Place, Scalar};
use cx_trees::{Constraint, Expr, TemplateArgument, TypeSyn};

/// A declaration of a unit ([dcl.dcl]).
#[derive(Drop)]
pub enum Decl<'s> {
    /// `;` alone ([dcl.pre]).
    Empty {
        node: NodeId,
        at: Place,
    },
    StaticAssert(Box<Assertion<'s>>),
    Alias(Box<Alias<'s>>),
    /// A variable of the unit.
    Constant(Box<Constant<'s>>),
    Function(Box<FunctionDecl<'s>>),
    Struct(Box<Struct<'s>>),
    /// A template ([temp.pre]), its place that of the name that it declares.
    Template {
        node: NodeId,
        at: Place,
        parameters: Vec<TemplateParameter<'s>>,
        /// After `requires`.
        clause: Option<Box<Expr<'s>>>,
        templated: Templated<'s>,
    },
}

/// The words before a declaration ([dcl.stc], [dcl.inline], [dcl.constexpr]).
#[derive(Clone, Copy, Debug)]
pub struct Specifiers {
    pub is_inline: bool,
    pub is_static: bool,
    pub is_constexpr: bool,
}

/// A declaration of a function, with a body or none ([dcl.fct]). Its place is that of its name.
#[derive(Drop)]
pub struct FunctionDecl<'s> {
    pub node: NodeId,
    pub at: Place,
    pub specifiers: Specifiers,
    pub result: Box<TypeSyn<'s>>,
    pub name: &'s str,
    pub parameters: Vec<Parameter<'s>>,
    pub is_const: bool,
    /// The clause after `requires` ([dcl.decl]).
    pub trailing: Option<Box<Expr<'s>>>,
    /// A block ([dcl.fct.def]).
    pub body: Option<Box<Stmt<'s>>>,
}

/// A parameter of a function ([dcl.fct]). Its place is that of its name, or of its type where it has none.
#[derive(Drop)]
pub struct Parameter<'s> {
    pub node: NodeId,
    pub at: Place,
    pub written: WrittenType<'s>,
    pub name: Option<&'s str>,
}

/// A name for a type ([dcl.typedef]). Its place is that of its name.
#[derive(Drop)]
pub struct Alias<'s> {
    pub node: NodeId,
    pub at: Place,
    pub name: &'s str,
    pub of: Box<TypeSyn<'s>>,
}

/// A variable of the unit, or a static constant of a struct ([class.static.data]). Its place is that of its name.
#[derive(Drop)]
pub struct Constant<'s> {
    pub node: NodeId,
    pub at: Place,
    pub specifiers: Specifiers,
    pub of: Box<TypeSyn<'s>>,
    pub name: &'s str,
    pub init: Init<'s>,
}

/// A struct with its members ([class]). Its place is that of its name.
#[derive(Drop)]
pub struct Struct<'s> {
    pub node: NodeId,
    pub at: Place,
    pub name: &'s str,
    pub members: Vec<Member<'s>>,
}

/// A member of a struct ([class.mem]).
#[derive(Drop)]
pub enum Member<'s> {
    /// `;` alone.
    Empty {
        node: NodeId,
        at: Place,
    },
    Alias(Box<Alias<'s>>),
    /// A data member that is not static.
    Field {
        node: NodeId,
        at: Place,
        of: Box<TypeSyn<'s>>,
        name: &'s str,
    },
    Constant(Box<Constant<'s>>),
    Function(Box<FunctionDecl<'s>>),
}

/// A template parameter ([temp.param]). Its place is that of its name, or of its first token where it has none.
#[derive(Drop)]
pub enum TemplateParameter<'s> {
    /// `typename` or `class`.
    Type {
        node: NodeId,
        at: Place,
        name: Option<&'s str>,
        default: Option<Box<TypeSyn<'s>>>,
    },
    /// A type that a concept constrains.
    Constrained {
        node: NodeId,
        at: Place,
        constraint: Box<Constraint<'s>>,
        name: Option<&'s str>,
        default: Option<Box<TypeSyn<'s>>>,
    },
    Value {
        node: NodeId,
        at: Place,
        scalar: Scalar,
        name: Option<&'s str>,
        default: Option<Box<Expr<'s>>>,
    },
}

/// What a template declares ([temp.pre]).
#[derive(Drop)]
pub enum Templated<'s> {
    Function(Box<FunctionDecl<'s>>),
    Struct(Box<Struct<'s>>),
    /// A concept with its constraint-expression ([temp.concept]).
    Concept {
        node: NodeId,
        at: Place,
        name: &'s str,
        condition: Box<Expr<'s>>,
    },
    /// A partial or an explicit specialisation of a class template, with its arguments ([temp.spec]).
    Specialisation(Box<Struct<'s>>, Vec<TemplateArgument<'s>>),
}

/// A unit: its declarations in order ([basic.link]).
#[derive(Drop)]
pub struct Unit<'s> {
    pub declarations: Vec<Decl<'s>>,
}

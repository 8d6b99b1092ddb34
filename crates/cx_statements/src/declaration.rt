use crate::statement::{Assertion, Constraint, Init, Stmt, WrittenType};
use cx_base::{NodeId, Place, Scalar};
use cx_tree::{Expr, TemplateArgument, TypeSyn};

/// A declaration of a unit ([dcl.dcl]).
#[derive(Debug, Drop)]
pub enum Decl<'s> {
    /// `;` alone ([dcl.pre]).
    Empty {
        node: NodeId,
        at: Place,
    },
    StaticAssert(Assertion<'s>),
    Alias(Alias<'s>),
    /// A variable of the unit.
    Constant(Constant<'s>),
    Function(FunctionDecl<'s>),
    Struct(Struct<'s>),
    /// A template, its place that of `template` ([temp.pre]).
    Template {
        node: NodeId,
        at: Place,
        parameters: Vec<TemplateParameter<'s>>,
        /// Behind `requires`.
        clause: Option<Expr<'s>>,
        templated: Templated<'s>,
    },
}

/// The words before a declaration ([dcl.stc], [dcl.inline], [dcl.constexpr]).
#[derive(Clone, Copy, Debug)]
pub struct Specifiers {
    pub is_inline: bool,
    pub is_static: bool,
    pub is_constexpr: bool,
}

/// A declaration of a function, with a body or none ([dcl.fct]). Its place is that of its name.
#[derive(Debug, Drop)]
pub struct FunctionDecl<'s> {
    pub node: NodeId,
    pub at: Place,
    pub specifiers: Specifiers,
    pub result: TypeSyn<'s>,
    pub name: &'s str,
    pub parameters: Vec<Parameter<'s>>,
    pub is_const: bool,
    /// The clause behind `requires` ([dcl.decl]).
    pub trailing: Option<Expr<'s>>,
    /// A block ([dcl.fct.def]).
    pub body: Option<Stmt<'s>>,
}

/// A parameter of a function ([dcl.fct]). Its place is that of its name, or of its type where it has none.
#[derive(Debug, Drop)]
pub struct Parameter<'s> {
    pub node: NodeId,
    pub at: Place,
    pub written: WrittenType<'s>,
    pub name: Option<&'s str>,
}

/// A name for a type ([dcl.typedef]).
#[derive(Debug, Drop)]
pub struct Alias<'s> {
    pub node: NodeId,
    pub at: Place,
    pub name: &'s str,
    pub of: TypeSyn<'s>,
}

/// A variable of the unit, or a static constant of a struct ([class.static.data]).
#[derive(Debug, Drop)]
pub struct Constant<'s> {
    pub node: NodeId,
    pub at: Place,
    pub specifiers: Specifiers,
    pub of: TypeSyn<'s>,
    pub name: &'s str,
    pub init: Init<'s>,
}

/// A struct with its members ([class]).
#[derive(Debug, Drop)]
pub struct Struct<'s> {
    pub node: NodeId,
    pub at: Place,
    pub name: &'s str,
    pub members: Vec<Member<'s>>,
}

/// A member of a struct ([class.mem]).
#[derive(Debug, Drop)]
pub enum Member<'s> {
    /// `;` alone.
    Empty {
        node: NodeId,
        at: Place,
    },
    Alias(Alias<'s>),
    /// A data member that is not static.
    Field {
        node: NodeId,
        at: Place,
        of: TypeSyn<'s>,
        name: &'s str,
    },
    Constant(Constant<'s>),
    Function(FunctionDecl<'s>),
}

/// A template parameter ([temp.param]).
#[derive(Debug, Drop)]
pub enum TemplateParameter<'s> {
    /// `typename` or `class`.
    Type {
        node: NodeId,
        at: Place,
        name: Option<&'s str>,
        default: Option<TypeSyn<'s>>,
    },
    /// A type that a concept constrains.
    Constrained {
        node: NodeId,
        at: Place,
        constraint: Constraint<'s>,
        name: Option<&'s str>,
        default: Option<TypeSyn<'s>>,
    },
    Value {
        node: NodeId,
        at: Place,
        scalar: Scalar,
        name: Option<&'s str>,
        default: Option<Expr<'s>>,
    },
}

/// What a template declares ([temp.pre]).
#[derive(Debug, Drop)]
pub enum Templated<'s> {
    Function(FunctionDecl<'s>),
    Struct(Struct<'s>),
    /// A concept with its constraint-expression ([temp.concept]).
    Concept {
        node: NodeId,
        at: Place,
        name: &'s str,
        condition: Expr<'s>,
    },
    /// A partial or an explicit specialisation of a class template, with its arguments ([temp.spec]).
    Specialisation(Struct<'s>, Vec<TemplateArgument<'s>>),
}

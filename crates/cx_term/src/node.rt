use crate::word::Word;
use cx_base::{ArgsId, DeclId, Scalar, TermId};

/// The top of a type, a template argument or a dependent expression: its parts are numbers of a table.
#[derive(Clone, Copy, PartialEq, Eq, Hash)]
pub enum Node<'a> {
    /// The template parameter at this position.
    Param(u32),
    /// A scalar type.
    Scalar(Scalar),
    /// `void`.
    Void,
    /// A class that is no template's.
    Struct(DeclId),
    /// A class template with its arguments.
    Inst(DeclId, ArgsId),
    /// `const` in front of a type.
    Const(TermId),
    /// A reference to a type.
    Ref(TermId),
    /// The member type of this name, of a type.
    Member(TermId, &'a str),
    /// The type of an expression.
    Decltype(TermId),
    /// A value of a scalar type.
    Val(Scalar, i128),
    /// A local variable or parameter.
    Local(u32),
    /// The functions of this name, of which so many are visible.
    Functions(&'a str, u32),
    /// A dependent expression of these parts.
    Form(Word, ArgsId),
}

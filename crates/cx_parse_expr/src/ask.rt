//! What a production asks of those that stand one construct deeper.

ghost use Rattle.std.specs.Prelude.{◌≡◌, ◌<◌, ◌≤◌, ◌+◌, ◌^◌};
ghost use Rattle.cx_parse_expr.specs.Asks.{Asks, Answers, deepest, expr_reply, type_reply, core_reply, argument_reply};
ghost use Rattle.cx_spots.specs.Spots.{weight};
ghost use Rattle.cx_parse_expr.specs.declared.ask.Reply.TheVariants as Reply;

use crate::primary::Calling;
use cx_spots::{Context, Cored, Read, Spot};
use cx_tree::{Expr, TemplateArgument, TypeSyn};

/// A production, with what is told it.
#[derive(Debug, Drop)]
pub(crate) enum Question<'s> {
    Expr,
    Unary,
    BinaryRest(u32, Expr<'s>),
    Operand(u32),
    Tail(Calling, Expr<'s>),
    Called(Expr<'s>),
    Type,
    Core,
    Argument,
}

/// A question, and where it is asked.
#[derive(Drop)]
pub(crate) struct Asked<'c, 't, 's> {
    pub(crate) question: Question<'s>,
    pub(crate) context: Context<'c, 's>,
    pub(crate) spot: Spot<'t, 's>,
}

/// What a production gives.
#[derive(Debug, Drop)]
pub(crate) enum Reply<'s> {
    Expr(Expr<'s>),
    Type(TypeSyn<'s>),
    Core(Cored<'s>),
    Argument(TemplateArgument<'s>),
}

impl<'s> Reply<'s> {
    /// An expression.
    pub(crate) fn expr(self) -> Expr<'s>
        requires { (x : _) × (self ≡ Reply.Expr x) }
        ensures { self.entry ≡ Reply.Expr result }
    {
        match self {
            Reply::Expr(part) => part,
            _ => unreachable!(),
        }
    }

    /// A type.
    pub(crate) fn type_syn(self) -> TypeSyn<'s>
        requires { (x : _) × (self ≡ Reply.Type x) }
        ensures { self.entry ≡ Reply.Type result }
    {
        match self {
            Reply::Type(part) => part,
            _ => unreachable!(),
        }
    }

    /// A core.
    pub(crate) fn core(self) -> Cored<'s>
        requires { (x : _) × (self ≡ Reply.Core x) }
        ensures { self.entry ≡ Reply.Core result }
    {
        match self {
            Reply::Core(part) => part,
            _ => unreachable!(),
        }
    }

    /// A template argument.
    pub(crate) fn argument(self) -> TemplateArgument<'s>
        requires { (x : _) × (self ≡ Reply.Argument x) }
        ensures { self.entry ≡ Reply.Argument result }
    {
        match self {
            Reply::Argument(part) => part,
            _ => unreachable!(),
        }
    }
}

/// An expression, as a reply.
pub(crate) fn expr_reply<'t, 's>(read: Read<'t, 's, Expr<'s>>) -> Read<'t, 's, Reply<'s>>
    ensures { result ≡ expr_reply read.entry }
{
    let (part, spot) = read?;
    Ok((Reply::Expr(part), spot))
}

/// An expression, of a reply that is one.
pub(crate) fn only_expr<'t, 's>(read: Read<'t, 's, Reply<'s>>) -> Read<'t, 's, Expr<'s>>
    requires { (x : _) × (read ≡ expr_reply x) }
    ensures { read.entry ≡ expr_reply result }
{
    let (reply, spot) = read?;
    Ok((reply.expr(), spot))
}

/// A type, as a reply.
pub(crate) fn type_reply<'t, 's>(read: Read<'t, 's, TypeSyn<'s>>) -> Read<'t, 's, Reply<'s>>
    ensures { result ≡ type_reply read.entry }
{
    let (part, spot) = read?;
    Ok((Reply::Type(part), spot))
}

/// A type, of a reply that is one.
pub(crate) fn only_type<'t, 's>(read: Read<'t, 's, Reply<'s>>) -> Read<'t, 's, TypeSyn<'s>>
    requires { (x : _) × (read ≡ type_reply x) }
    ensures { read.entry ≡ type_reply result }
{
    let (reply, spot) = read?;
    Ok((reply.type_syn(), spot))
}

/// A core, as a reply.
pub(crate) fn core_reply<'t, 's>(read: Read<'t, 's, Cored<'s>>) -> Read<'t, 's, Reply<'s>>
    ensures { result ≡ core_reply read.entry }
{
    let (part, spot) = read?;
    Ok((Reply::Core(part), spot))
}

/// A core, of a reply that is one.
pub(crate) fn only_core<'t, 's>(read: Read<'t, 's, Reply<'s>>) -> Read<'t, 's, Cored<'s>>
    requires { (x : _) × (read ≡ core_reply x) }
    ensures { read.entry ≡ core_reply result }
{
    let (reply, spot) = read?;
    Ok((reply.core(), spot))
}

/// A template argument, as a reply.
pub(crate) fn argument_reply<'t, 's>(
    read: Read<'t, 's, TemplateArgument<'s>>,
) -> Read<'t, 's, Reply<'s>>
    ensures { result ≡ argument_reply read.entry }
{
    let (part, spot) = read?;
    Ok((Reply::Argument(part), spot))
}

/// A template argument, of a reply that is one.
pub(crate) fn only_argument<'t, 's>(
    read: Read<'t, 's, Reply<'s>>,
) -> Read<'t, 's, TemplateArgument<'s>>
    requires { (x : _) × (read ≡ argument_reply x) }
    ensures { read.entry ≡ argument_reply result }
{
    let (reply, spot) = read?;
    Ok((reply.argument(), spot))
}

//! The productions that stand one construct deeper, as they are asked.

ghost use Rattle.std.specs.Prelude.{◌≡◌, ◌<◌, ◌≤◌, ◌+◌, ◌^◌, map};
ghost use Rattle.cx_tree.specs.Trees.{expr_tree, type_tree, argument_tree};
ghost use Rattle.cx_parse_expr.specs.Asks.{Asks, Answers, deepest};
ghost use Rattle.cx_spots.specs.Spots.{ReadsNode, Lightens, weight, context_of, at};
ghost use Rattle.cx_parse_expr.specs.Views.{calling_of};
ghost use Rattle.cx_spots.specs.Views.{placed_core};

use crate::ask::{Asked, Question, Reply, only_argument, only_core, only_expr, only_type};
use crate::primary::Calling;
use cx_spots::{Context, Cored, Read, Spot};
use cx_tree::{Expr, TemplateArgument, TypeSyn};

/// Puts a question.
fn put<'c, 't, 's, F: for<'a, 'b> Fn(Asked<'a, 'b, 's>) -> Read<'b, 's, Reply<'s>>>(
    ask: &F,
    question: Question<'s>,
    context: Context<'c, 's>,
    spot: Spot<'t, 's>,
) -> Read<'t, 's, Reply<'s>>
    requires law { Asks (F.pre ask.now) (F.post ask.now) context.load }
    requires load { context.load ≤ deepest question }
    requires room { weight spot < 2 ^ 32 }
    ensures { Answers question.entry context.entry spot.entry result }
{
    ask(Asked {
        question,
        context,
        spot,
    })
}

/// A unary expression.
pub(crate) fn unary<'c, 't, 's, F: for<'a, 'b> Fn(Asked<'a, 'b, 's>) -> Read<'b, 's, Reply<'s>>>(
    ask: &F,
    context: Context<'c, 's>,
    spot: Spot<'t, 's>,
) -> Read<'t, 's, Expr<'s>>
    requires law { Asks (F.pre ask.now) (F.post ask.now) context.load }
    requires load { context.load ≤ 257 }
    requires room { weight spot < 2 ^ 32 }
    ensures exact { ReadsNode expr_tree ((at (context_of context.entry)).unary (context_of context.entry)) spot.entry result }
    ensures lightens { Lightens 4 spot.entry result }
{
    let question: Question<'s> = Question::Unary;
    let reply = put(ask, question, context, spot);
    only_expr(reply)
}

/// The operators of a level behind a left operand.
pub(crate) fn binary_rest<
    'c,
    't,
    's,
    F: for<'a, 'b> Fn(Asked<'a, 'b, 's>) -> Read<'b, 's, Reply<'s>>,
>(
    ask: &F,
    context: Context<'c, 's>,
    level: u32,
    left: Expr<'s>,
    spot: Spot<'t, 's>,
) -> Read<'t, 's, Expr<'s>>
    requires law { Asks (F.pre ask.now) (F.post ask.now) context.load }
    requires load { context.load ≤ 257 }
    requires room { weight spot < 2 ^ 32 }
    ensures exact { ReadsNode expr_tree (λ n. (at (context_of context.entry)).binary_rest level (context_of context.entry) (expr_tree left.entry, n)) spot.entry result }
    ensures lightens { Lightens 0 spot.entry result }
{
    let question: Question<'s> = Question::BinaryRest(level, left);
    let reply = put(ask, question, context, spot);
    only_expr(reply)
}

/// An operand of an operator of a level.
pub(crate) fn operand<'c, 't, 's, F: for<'a, 'b> Fn(Asked<'a, 'b, 's>) -> Read<'b, 's, Reply<'s>>>(
    ask: &F,
    context: Context<'c, 's>,
    level: u32,
    spot: Spot<'t, 's>,
) -> Read<'t, 's, Expr<'s>>
    requires law { Asks (F.pre ask.now) (F.post ask.now) context.load }
    requires load { context.load ≤ 257 }
    requires room { weight spot < 2 ^ 32 }
    ensures exact { ReadsNode expr_tree ((at (context_of context.entry)).operand level (context_of context.entry)) spot.entry result }
    ensures lightens { Lightens 4 spot.entry result }
{
    let question: Question<'s> = Question::Operand(level);
    let reply = put(ask, question, context, spot);
    only_expr(reply)
}

/// An expression. Within a list of template arguments it has no assignment, and `>` is no operator.
pub(crate) fn expr<'c, 't, 's, F: for<'a, 'b> Fn(Asked<'a, 'b, 's>) -> Read<'b, 's, Reply<'s>>>(
    ask: &F,
    context: Context<'c, 's>,
    spot: Spot<'t, 's>,
) -> Read<'t, 's, Expr<'s>>
    requires law { Asks (F.pre ask.now) (F.post ask.now) context.load }
    requires load { context.load ≤ 257 }
    requires room { weight spot < 2 ^ 32 }
    ensures exact { ReadsNode expr_tree ((at (context_of context.entry)).expr (context_of context.entry)) spot.entry result }
    ensures lightens { Lightens 4 spot.entry result }
{
    let question: Question<'s> = Question::Expr;
    let reply = put(ask, question, context, spot);
    only_expr(reply)
}

/// What stands behind the `(` of a call.
pub(crate) fn called<'c, 't, 's, F: for<'a, 'b> Fn(Asked<'a, 'b, 's>) -> Read<'b, 's, Reply<'s>>>(
    ask: &F,
    context: Context<'c, 's>,
    operand: Expr<'s>,
    spot: Spot<'t, 's>,
) -> Read<'t, 's, Expr<'s>>
    requires law { Asks (F.pre ask.now) (F.post ask.now) context.load }
    requires load { context.load ≤ 256 }
    requires room { weight spot < 2 ^ 32 }
    ensures exact { ReadsNode expr_tree (λ n. (at (context_of context.entry)).called (context_of context.entry) (expr_tree operand.entry, n)) spot.entry result }
    ensures lightens { Lightens 0 spot.entry result }
{
    let question: Question<'s> = Question::Called(operand);
    let reply = put(ask, question, context, spot);
    only_expr(reply)
}

/// The postfix operators behind an operand.
pub(crate) fn tail<'c, 't, 's, F: for<'a, 'b> Fn(Asked<'a, 'b, 's>) -> Read<'b, 's, Reply<'s>>>(
    ask: &F,
    context: Context<'c, 's>,
    calling: Calling,
    operand: Expr<'s>,
    spot: Spot<'t, 's>,
) -> Read<'t, 's, Expr<'s>>
    requires law { Asks (F.pre ask.now) (F.post ask.now) context.load }
    requires load { context.load ≤ 257 }
    requires room { weight spot < 2 ^ 32 }
    ensures exact { ReadsNode expr_tree (λ n. (at (context_of context.entry)).tail (calling_of calling) (context_of context.entry) (expr_tree operand.entry, n)) spot.entry result }
    ensures lightens { Lightens 0 spot.entry result }
{
    let question: Question<'s> = Question::Tail(calling, operand);
    let reply = put(ask, question, context, spot);
    only_expr(reply)
}

/// A template argument: a type, or an expression.
pub(crate) fn argument<'c, 't, 's, F: for<'a, 'b> Fn(Asked<'a, 'b, 's>) -> Read<'b, 's, Reply<'s>>>(
    ask: &F,
    context: Context<'c, 's>,
    spot: Spot<'t, 's>,
) -> Read<'t, 's, TemplateArgument<'s>>
    requires law { Asks (F.pre ask.now) (F.post ask.now) context.load }
    requires load { context.load ≤ 257 }
    requires room { weight spot < 2 ^ 32 }
    ensures exact { ReadsNode argument_tree ((at (context_of context.entry)).argument (context_of context.entry)) spot.entry result }
    ensures lightens { Lightens 4 spot.entry result }
{
    let question: Question<'s> = Question::Argument;
    let reply = put(ask, question, context, spot);
    only_argument(reply)
}

/// A core: a type without its `const` and `&`.
pub(crate) fn core<'c, 't, 's, F: for<'a, 'b> Fn(Asked<'a, 'b, 's>) -> Read<'b, 's, Reply<'s>>>(
    ask: &F,
    context: Context<'c, 's>,
    spot: Spot<'t, 's>,
) -> Read<'t, 's, Cored<'s>>
    requires law { Asks (F.pre ask.now) (F.post ask.now) context.load }
    requires load { context.load ≤ 258 }
    requires room { weight spot < 2 ^ 32 }
    ensures exact { ReadsNode placed_core ((at (context_of context.entry)).core (context_of context.entry)) spot.entry result }
    ensures lightens { Lightens 8 spot.entry result }
{
    let question: Question<'s> = Question::Core;
    let reply = put(ask, question, context, spot);
    only_core(reply)
}

/// A type.
pub(crate) fn type_syn<'c, 't, 's, F: for<'a, 'b> Fn(Asked<'a, 'b, 's>) -> Read<'b, 's, Reply<'s>>>(
    ask: &F,
    context: Context<'c, 's>,
    spot: Spot<'t, 's>,
) -> Read<'t, 's, TypeSyn<'s>>
    requires law { Asks (F.pre ask.now) (F.post ask.now) context.load }
    requires load { context.load ≤ 257 }
    requires room { weight spot < 2 ^ 32 }
    ensures exact { ReadsNode type_tree ((at (context_of context.entry)).type (context_of context.entry)) spot.entry result }
    ensures lightens { Lightens 4 spot.entry result }
{
    let question: Question<'s> = Question::Type;
    let reply = put(ask, question, context, spot);
    only_type(reply)
}

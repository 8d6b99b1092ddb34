//! Template arguments ([temp.arg]).

ghost use Rattle.std.specs.Prelude.{◌≡◌, ◌<◌, ◌≤◌, ◌+◌, ◌^◌, codes, true, false, map, IfOk};
ghost use Rattle.cx_tree.specs.Trees.{expr_tree, type_tree, argument_tree};
ghost use Rattle.cx_grammar.specs.Expressions as expressions;
ghost use Rattle.cx_parse_expr.specs.Asks.{Asks};
ghost use Rattle.cx_spots.specs.Views.{placed_core};
ghost use Rattle.cx_spots.specs.Spots.{ReadsNode, Lightens, weight, context_of, at, below};

use crate::ask::{Asked, Reply};
use crate::deeper::core;
use crate::expression::{expr_behind, expr_here};
use crate::postfix::tail_here;
use crate::primary::{Calling, behind_core, behind_head, word_core};
use crate::types::{const_type, type_behind};
use cx_spots::{Class, Context, Cored, Piece, Read, Spot, scalar_behind};
use cx_tree::{Core, Expr, TemplateArgument};

/// An expression whose primary is read.
#[tactic(auto, unfolding(cx_grammar::specs::Expressions::argument_of))]
fn argument_of<'c, 't, 's, F: for<'a, 'b> Fn(Asked<'a, 'b, 's>) -> Read<'b, 's, Reply<'s>>>(
    ask: &F,
    context: Context<'c, 's>,
    primary: Expr<'s>,
    spot: Spot<'t, 's>,
) -> Read<'t, 's, TemplateArgument<'s>>
    requires law { Asks (F.pre ask.now) (F.post ask.now) (context.load + 1) }
    requires load { context.load ≤ 257 }
    requires room { weight spot < 2 ^ 32 }
    ensures exact { ReadsNode argument_tree (λ n. expressions.argument_of (below (context_of context.entry)) (context_of context.entry) (expr_tree primary.entry, n)) spot.entry result }
    ensures lightens { Lightens 0 spot.entry result }
{
    let (operand, spot) = tail_here(ask, context, Calling::No, primary, spot)?;
    let (value, spot) = expr_behind(ask, context, operand, spot)?;
    Ok((TemplateArgument::Value(value), spot))
}

/// A type whose core is read.
#[tactic(auto, unfolding(cx_grammar::specs::Expressions::argument_type))]
fn argument_type<'t, 's>(
    context: Context<'_, 's>,
    core: Cored<'s>,
    spot: Spot<'t, 's>,
) -> Read<'t, 's, TemplateArgument<'s>>
    requires load { context.load ≤ 257 }
    requires room { weight spot + 1 < 2 ^ 32 }
    ensures exact { ReadsNode argument_tree (λ n. expressions.argument_type (context_of context.entry) (placed_core core.entry, n)) spot.entry result }
    ensures lightens { IfOk result (λ x. (spot.entry.next ≤ x.1.next) × (weight x.1 ≤ weight spot.entry + 1)) }
{
    let (syn, spot) = type_behind(context, core.at, false, core.core, spot)?;
    Ok((TemplateArgument::Type(syn), spot))
}

/// What stands behind a core: a list in braces makes it an expression.
#[tactic(auto, unfolding(cx_grammar::specs::Expressions::core_argument))]
fn core_argument<'c, 't, 's, F: for<'a, 'b> Fn(Asked<'a, 'b, 's>) -> Read<'b, 's, Reply<'s>>>(
    ask: &F,
    context: Context<'c, 's>,
    core: Cored<'s>,
    spot: Spot<'t, 's>,
) -> Read<'t, 's, TemplateArgument<'s>>
    requires law { Asks (F.pre ask.now) (F.post ask.now) (context.load + 1) }
    requires load { context.load ≤ 257 }
    requires room { weight spot + 1 < 2 ^ 32 }
    ensures exact { ReadsNode argument_tree (λ n. expressions.core_argument (below (context_of context.entry)) (context_of context.entry) (placed_core core.entry, n)) spot.entry result }
    ensures lightens { IfOk result (λ x. (spot.entry.next ≤ x.1.next) × (weight x.1 ≤ weight spot.entry + 1)) }
{
    if !spot.begins(context, Class::Punct("{")) {
        return argument_type(context, core, spot);
    }
    let (primary, spot) = behind_core(ask, context, core, spot)?;
    argument_of(ask, context, primary, spot)
}

/// What stands behind the name of a type or a class template with arguments: `::` makes it an expression too.
#[tactic(auto, unfolding(cx_grammar::specs::Expressions::head_argument))]
fn head_argument<'c, 't, 's, F: for<'a, 'b> Fn(Asked<'a, 'b, 's>) -> Read<'b, 's, Reply<'s>>>(
    ask: &F,
    context: Context<'c, 's>,
    core: Cored<'s>,
    spot: Spot<'t, 's>,
) -> Read<'t, 's, TemplateArgument<'s>>
    requires law { Asks (F.pre ask.now) (F.post ask.now) (context.load + 1) }
    requires load { context.load ≤ 257 }
    requires room { weight spot + 1 < 2 ^ 32 }
    ensures exact { ReadsNode argument_tree (λ n. expressions.head_argument (below (context_of context.entry)) (context_of context.entry) (placed_core core.entry, n)) spot.entry result }
    ensures lightens { IfOk result (λ x. (spot.entry.next ≤ x.1.next) × (weight x.1 ≤ weight spot.entry + 1)) }
{
    if !spot.begins(context, Class::GoesOn) {
        return argument_type(context, core, spot);
    }
    let (primary, spot) = behind_head(ask, context, core, spot)?;
    argument_of(ask, context, primary, spot)
}

/// An argument that begins with a scalar of one word, which may be the type of a list.
#[tactic(auto, unfolding(cx_grammar::specs::Expressions::word_argument))]
fn word_argument<'c, 't, 's, F: for<'a, 'b> Fn(Asked<'a, 'b, 's>) -> Read<'b, 's, Reply<'s>>>(
    ask: &F,
    context: Context<'c, 's>,
    spot: Spot<'t, 's>,
) -> Read<'t, 's, TemplateArgument<'s>>
    requires law { Asks (F.pre ask.now) (F.post ask.now) (context.load + 1) }
    requires load { context.load ≤ 257 }
    requires room { weight spot < 2 ^ 32 }
    ensures exact { ReadsNode argument_tree (expressions.word_argument (below (context_of context.entry)) (context_of context.entry)) spot.entry result }
    ensures lightens { Lightens 4 spot.entry result }
{
    let (word, spot) = spot.take(context, context.load + 1, Class::OneWord)?;
    if spot.begins(context, Class::Punct("{")) {
        let core: Cored<'s> = word_core(word);
        let (primary, spot) = behind_core(ask, context, core, spot)?;
        return argument_of(ask, context, primary, spot);
    }
    let (scalar, spot) = scalar_behind(context.deeper(), word, spot)?;
    let core: Cored<'s> = Cored {
        at: word.token.at,
        core: Core::Scalar(scalar),
    };
    argument_type(context, core, spot)
}

/// An argument that is a type by its first token.
#[tactic(auto, unfolding(cx_grammar::specs::Expressions::core_type_argument))]
fn core_type_argument<'c, 't, 's, F: for<'a, 'b> Fn(Asked<'a, 'b, 's>) -> Read<'b, 's, Reply<'s>>>(
    ask: &F,
    context: Context<'c, 's>,
    spot: Spot<'t, 's>,
) -> Read<'t, 's, TemplateArgument<'s>>
    requires law { Asks (F.pre ask.now) (F.post ask.now) (context.load + 1) }
    requires load { context.load ≤ 257 }
    requires room { weight spot < 2 ^ 32 }
    ensures exact { ReadsNode argument_tree (expressions.core_type_argument (below (context_of context.entry)) (context_of context.entry)) spot.entry result }
    ensures lightens { Lightens 4 spot.entry result }
{
    let (core, spot) = core(ask, context.deeper(), spot)?;
    argument_type(context, core, spot)
}

/// A template argument, by its first token.
#[tactic(auto, unfolding(cx_grammar::specs::Expressions::argument))]
pub(crate) fn argument_here<
    'c,
    't,
    's,
    F: for<'a, 'b> Fn(Asked<'a, 'b, 's>) -> Read<'b, 's, Reply<'s>>,
>(ask: &F, context: Context<'c, 's>, spot: Spot<'t, 's>) -> Read<'t, 's, TemplateArgument<'s>>
    requires law { Asks (F.pre ask.now) (F.post ask.now) (context.load + 1) }
    requires load { context.load ≤ 257 }
    requires room { weight spot < 2 ^ 32 }
    ensures exact { ReadsNode argument_tree (expressions.argument (below (context_of context.entry)) (context_of context.entry)) spot.entry result }
    ensures lightens { Lightens 4 spot.entry result }
{
    if spot.begins(context, Class::Word("const")) {
        let (syn, spot) = const_type(ask, context, spot)?;
        return Ok((TemplateArgument::Type(syn), spot));
    }
    if spot.begins(context, Class::HeadName) {
        let (core, spot) = core(ask, context.deeper(), spot)?;
        return head_argument(ask, context, core, spot);
    }
    if spot.begins(context, Class::CoreWord) {
        let (core, spot) = core(ask, context.deeper(), spot)?;
        return core_argument(ask, context, core, spot);
    }
    if spot.begins(context, Class::OneWord) {
        return word_argument(ask, context, spot);
    }
    if spot.begins(context, Class::Word("long")) {
        return core_type_argument(ask, context, spot);
    }
    let (value, spot) = expr_here(ask, context, spot)?;
    Ok((TemplateArgument::Value(value), spot))
}

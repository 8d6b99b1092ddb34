//! The clause of a requires ([temp.pre], [expr.log.and], [expr.log.or]).

ghost use Rattle.std.specs.Prelude.{◌≡◌, ◌<◌, ◌≤◌, ◌+◌, ◌^◌, codes, true, false, map, IfOk};
ghost use Rattle.cx_tree.specs.Trees.{expr_tree, type_tree, argument_tree};
ghost use Rattle.cx_grammar.specs.Expressions as expressions;
ghost use Rattle.cx_parse_expr.specs.Views.{calling_of};
ghost use Rattle.cx_spots.specs.Spots.{ReadsNode, Lightens, weight, context_of, at, below};

use crate::deeper::core;
use crate::engine::read;
use crate::primary::{Calling, Operand, qualified, simple_primary};
use crate::types::as_type;
use cx_spots::{Class, Context, Read, Spot};
use cx_tree::{BinaryOperator, Expr};

/// A primary that need not be called.
#[tactic(auto, unfolding(cx_grammar::specs::Expressions::uncalled))]
fn uncalled<'t, 's>(
    context: Context<'_, 's>,
    operand: Operand<'s>,
    spot: Spot<'t, 's>,
) -> Read<'t, 's, Expr<'s>>
    requires load { context.load ≤ 257 }
    requires room { weight spot < 2 ^ 32 }
    ensures exact { ReadsNode expr_tree (λ n. expressions.uncalled (context_of context.entry) ((expr_tree operand.entry.expr, n), calling_of operand.entry.calling)) spot.entry result }
    ensures lightens { Lightens 0 spot.entry result }
{
    match operand.calling {
        Calling::Must => {
            let (_, spot) = spot.take(context, context.load, Class::Nothing)?;
            Ok((operand.expr, spot))
        }
        _ => Ok((operand.expr, spot)),
    }
}

/// A primary of a clause.
#[tactic(auto, unfolding(cx_grammar::specs::Expressions::clause_primary))]
fn clause_primary_here<'t, 's>(
    context: Context<'_, 's>,
    spot: Spot<'t, 's>,
) -> Read<'t, 's, Expr<'s>>
    requires load { context.load ≤ 257 }
    requires room { weight spot < 2 ^ 32 }
    ensures exact { ReadsNode expr_tree (expressions.clause_primary (below (context_of context.entry)) (context_of context.entry)) spot.entry result }
    ensures lightens { Lightens 4 spot.entry result }
{
    if spot.begins(context, Class::HeadName) {
        let (core, spot) = core(&read, context.deeper(), spot)?;
        let at = core.at;
        let (head, spot) = as_type(core, spot);
        return qualified(context, head, at, spot);
    }
    let (operand, spot) = simple_primary(&read, context, spot)?;
    uncalled(context, operand, spot)
}

/// A primary of a clause.
#[tactic(auto, using(crate::proofs::Knot::knot))]
fn clause_primary<'t, 's>(context: Context<'_, 's>, spot: Spot<'t, 's>) -> Read<'t, 's, Expr<'s>>
    requires load { context.load ≤ 257 }
    requires room { weight spot < 2 ^ 32 }
    ensures exact { ReadsNode expr_tree ((at (context_of context.entry)).clause_primary (context_of context.entry)) spot.entry result }
    ensures lightens { Lightens 4 spot.entry result }
{
    clause_primary_here(context, spot)
}

/// The primaries behind `&&`, grouped from the left.
#[cycle(and_rests)]
#[tactic(auto, unfolding(cx_grammar::specs::Expressions::and_rest))]
fn and_rest_here<'t, 's>(
    context: Context<'_, 's>,
    left: Expr<'s>,
    spot: Spot<'t, 's>,
) -> Read<'t, 's, Expr<'s>>
    requires load { context.load ≤ 257 }
    requires room { weight spot < 2 ^ 32 }
    ensures exact { ReadsNode expr_tree (λ n. expressions.and_rest (below (context_of context.entry)) (context_of context.entry) (expr_tree left.entry, n)) spot.entry result }
    ensures lightens { Lightens 0 spot.entry result }
{
    if !spot.begins(context, Class::Punct("&&")) {
        return Ok((left, spot));
    }
    let (_, spot) = spot.take(context, context.load, Class::Punct("&&"))?;
    let (right, spot) = clause_primary(context.deeper(), spot)?;
    let (node, spot) = spot.number();
    let whole = Expr::Binary {
        node,
        at: left.at(),
        operator: BinaryOperator::And,
        left: Box::new(context.alloc, left)?,
        right: Box::new(context.alloc, right)?,
    };
    and_rest(context.deeper(), whole, spot)
}

/// The primaries behind `&&`, grouped from the left.
#[cycle(and_rests)]
#[tactic(auto, using(crate::proofs::Knot::knot))]
fn and_rest<'t, 's>(
    context: Context<'_, 's>,
    left: Expr<'s>,
    spot: Spot<'t, 's>,
) -> Read<'t, 's, Expr<'s>>
    requires load { context.load ≤ 257 }
    requires room { weight spot < 2 ^ 32 }
    ensures exact { ReadsNode expr_tree (λ n. (at (context_of context.entry)).and_rest (context_of context.entry) (expr_tree left.entry, n)) spot.entry result }
    ensures lightens { Lightens 0 spot.entry result }
{
    and_rest_here(context, left, spot)
}

/// Primaries joined by `&&`.
#[tactic(auto, unfolding(cx_grammar::specs::Expressions::conjunction))]
fn conjunction_here<'t, 's>(context: Context<'_, 's>, spot: Spot<'t, 's>) -> Read<'t, 's, Expr<'s>>
    requires load { context.load ≤ 257 }
    requires room { weight spot < 2 ^ 32 }
    ensures exact { ReadsNode expr_tree (expressions.conjunction (below (context_of context.entry)) (context_of context.entry)) spot.entry result }
    ensures lightens { Lightens 4 spot.entry result }
{
    let (left, spot) = clause_primary_here(context, spot)?;
    and_rest_here(context, left, spot)
}

/// Primaries joined by `&&`.
#[tactic(auto, using(crate::proofs::Knot::knot))]
fn conjunction<'t, 's>(context: Context<'_, 's>, spot: Spot<'t, 's>) -> Read<'t, 's, Expr<'s>>
    requires load { context.load ≤ 257 }
    requires room { weight spot < 2 ^ 32 }
    ensures exact { ReadsNode expr_tree ((at (context_of context.entry)).conjunction (context_of context.entry)) spot.entry result }
    ensures lightens { Lightens 4 spot.entry result }
{
    conjunction_here(context, spot)
}

/// The conjunctions behind `||`, grouped from the left.
#[cycle(or_rests)]
#[tactic(auto, unfolding(cx_grammar::specs::Expressions::or_rest))]
fn or_rest_here<'t, 's>(
    context: Context<'_, 's>,
    left: Expr<'s>,
    spot: Spot<'t, 's>,
) -> Read<'t, 's, Expr<'s>>
    requires load { context.load ≤ 257 }
    requires room { weight spot < 2 ^ 32 }
    ensures exact { ReadsNode expr_tree (λ n. expressions.or_rest (below (context_of context.entry)) (context_of context.entry) (expr_tree left.entry, n)) spot.entry result }
    ensures lightens { Lightens 0 spot.entry result }
{
    if !spot.begins(context, Class::Punct("||")) {
        return Ok((left, spot));
    }
    let (_, spot) = spot.take(context, context.load, Class::Punct("||"))?;
    let (right, spot) = conjunction(context.deeper(), spot)?;
    let (node, spot) = spot.number();
    let whole = Expr::Binary {
        node,
        at: left.at(),
        operator: BinaryOperator::Or,
        left: Box::new(context.alloc, left)?,
        right: Box::new(context.alloc, right)?,
    };
    or_rest(context.deeper(), whole, spot)
}

/// The conjunctions behind `||`, grouped from the left.
#[cycle(or_rests)]
#[tactic(auto, using(crate::proofs::Knot::knot))]
fn or_rest<'t, 's>(
    context: Context<'_, 's>,
    left: Expr<'s>,
    spot: Spot<'t, 's>,
) -> Read<'t, 's, Expr<'s>>
    requires load { context.load ≤ 257 }
    requires room { weight spot < 2 ^ 32 }
    ensures exact { ReadsNode expr_tree (λ n. (at (context_of context.entry)).or_rest (context_of context.entry) (expr_tree left.entry, n)) spot.entry result }
    ensures lightens { Lightens 0 spot.entry result }
{
    or_rest_here(context, left, spot)
}

/// A clause.
#[tactic(auto, unfolding(cx_grammar::specs::Expressions::clause))]
pub(crate) fn clause<'t, 's>(context: Context<'_, 's>, spot: Spot<'t, 's>) -> Read<'t, 's, Expr<'s>>
    requires load { context.load ≤ 257 }
    requires room { weight spot < 2 ^ 32 }
    ensures exact { ReadsNode expr_tree (expressions.clause (below (context_of context.entry)) (context_of context.entry)) spot.entry result }
    ensures lightens { Lightens 4 spot.entry result }
{
    let (left, spot) = conjunction_here(context, spot)?;
    or_rest_here(context, left, spot)
}

//! Expressions ([expr.cond], [expr.ass]).

ghost use Rattle.std.specs.Prelude.{◌≡◌, ◌<◌, ◌≤◌, ◌+◌, ◌^◌, codes, true, false, map, IfOk};
ghost use Rattle.cx_tree.specs.Trees.{expr_tree, type_tree, argument_tree};
ghost use Rattle.cx_grammar.specs.Expressions as expressions;
ghost use Rattle.cx_parse_expr.specs.Asks.{Asks};
ghost use Rattle.cx_spots.specs.Spots.{ReadsNode, Lightens, weight, context_of, at, below};

use crate::ask::{Asked, Reply};
use crate::binary::rests;
use crate::deeper::expr;
use crate::unary::unary_here;
use cx_spots::{Class, Context, Read, Spot};
use cx_tree::Expr;

/// What stands behind a condition: `?`, an expression, `:`, an expression.
#[tactic(auto, unfolding(cx_grammar::specs::Expressions::conditional))]
fn conditional<'c, 't, 's, F: for<'a, 'b> Fn(Asked<'a, 'b, 's>) -> Read<'b, 's, Reply<'s>>>(
    ask: &F,
    context: Context<'c, 's>,
    condition: Expr<'s>,
    spot: Spot<'t, 's>,
) -> Read<'t, 's, Expr<'s>>
    requires law { Asks (F.pre ask.now) (F.post ask.now) (context.load + 1) }
    requires load { context.load ≤ 257 }
    requires room { weight spot < 2 ^ 32 }
    ensures exact { ReadsNode expr_tree (λ n. expressions.conditional (below (context_of context.entry)) (context_of context.entry) (expr_tree condition.entry, n)) spot.entry result }
    ensures lightens { Lightens 0 spot.entry result }
{
    let (_, spot) = spot.take(context, context.load, Class::Punct("?"))?;
    let (then, spot) = expr(ask, context.deeper(), spot)?;
    let (_, spot) = spot.take(context, context.load + 1, Class::Punct(":"))?;
    let (otherwise, spot) = expr(ask, context.deeper(), spot)?;
    let (node, spot) = spot.number();
    Ok((
        Expr::Conditional {
            node,
            at: condition.at(),
            condition: Box::new(context.alloc, condition)?,
            then: Box::new(context.alloc, then)?,
            otherwise: Box::new(context.alloc, otherwise)?,
        },
        spot,
    ))
}

/// What stands behind a target: an assignment operator and an expression.
#[tactic(auto, unfolding(cx_grammar::specs::Expressions::assignment))]
fn assignment<'c, 't, 's, F: for<'a, 'b> Fn(Asked<'a, 'b, 's>) -> Read<'b, 's, Reply<'s>>>(
    ask: &F,
    context: Context<'c, 's>,
    target: Expr<'s>,
    spot: Spot<'t, 's>,
) -> Read<'t, 's, Expr<'s>>
    requires law { Asks (F.pre ask.now) (F.post ask.now) (context.load + 1) }
    requires load { context.load ≤ 257 }
    requires room { weight spot < 2 ^ 32 }
    ensures exact { ReadsNode expr_tree (λ n. expressions.assignment (below (context_of context.entry)) (context_of context.entry) (expr_tree target.entry, n)) spot.entry result }
    ensures lightens { Lightens 0 spot.entry result }
{
    let (operator, spot) = spot.take(context, context.load, Class::Assignment)?;
    let (value, spot) = expr(ask, context.deeper(), spot)?;
    let (node, spot) = spot.number();
    Ok((
        Expr::Assignment {
            node,
            at: target.at(),
            operator: operator.assignment_operator(),
            target: Box::new(context.alloc, target)?,
            value: Box::new(context.alloc, value)?,
        },
        spot,
    ))
}

/// What makes an expression of an operand.
#[tactic(auto, unfolding(cx_grammar::specs::Expressions::expr_behind))]
pub(crate) fn expr_behind<
    'c,
    't,
    's,
    F: for<'a, 'b> Fn(Asked<'a, 'b, 's>) -> Read<'b, 's, Reply<'s>>,
>(
    ask: &F,
    context: Context<'c, 's>,
    operand: Expr<'s>,
    spot: Spot<'t, 's>,
) -> Read<'t, 's, Expr<'s>>
    requires law { Asks (F.pre ask.now) (F.post ask.now) (context.load + 1) }
    requires load { context.load ≤ 257 }
    requires room { weight spot < 2 ^ 32 }
    ensures exact { ReadsNode expr_tree (λ n. expressions.expr_behind (below (context_of context.entry)) (context_of context.entry) (expr_tree operand.entry, n)) spot.entry result }
    ensures lightens { Lightens 0 spot.entry result }
{
    let (left, spot) = rests(ask, context, 10, operand, spot)?;
    if spot.begins(context, Class::Punct("?")) {
        return conditional(ask, context, left, spot);
    }
    if spot.begins(context, Class::Assignment) {
        return assignment(ask, context, left, spot);
    }
    Ok((left, spot))
}

/// An expression, from its first operand on.
#[tactic(auto, unfolding(cx_grammar::specs::Expressions::expr))]
pub(crate) fn expr_here<
    'c,
    't,
    's,
    F: for<'a, 'b> Fn(Asked<'a, 'b, 's>) -> Read<'b, 's, Reply<'s>>,
>(ask: &F, context: Context<'c, 's>, spot: Spot<'t, 's>) -> Read<'t, 's, Expr<'s>>
    requires law { Asks (F.pre ask.now) (F.post ask.now) (context.load + 1) }
    requires load { context.load ≤ 257 }
    requires room { weight spot < 2 ^ 32 }
    ensures exact { ReadsNode expr_tree (expressions.expr (below (context_of context.entry)) (context_of context.entry)) spot.entry result }
    ensures lightens { Lightens 4 spot.entry result }
{
    let (operand, spot) = unary_here(ask, context, spot)?;
    expr_behind(ask, context, operand, spot)
}

//! Binary expressions ([expr.mul] to [expr.log.or]).

ghost use Rattle.std.specs.Prelude.{◌≡◌, ◌<◌, ◌≤◌, ◌+◌, ◌^◌, codes, true, false, map, IfOk};
ghost use Rattle.cx_tree.specs.Trees.{expr_tree, type_tree, argument_tree};
ghost use Rattle.cx_grammar.specs.Expressions as expressions;
ghost use Rattle.cx_parse_expr.specs.Asks.{Asks};
ghost use Rattle.cx_spots.specs.Spots.{Reads, ReadsNode, Lightens, weight, context_of, at, below};

use crate::ask::{Asked, Reply};
use crate::deeper::{binary_rest, operand};
use crate::unary::unary_here;
use cx_spots::{Class, Context, Half, Read, Spot};
use cx_tree::{BinaryOperator, Expr};

/// An operator of a level: `>>` is two pieces.
#[tactic(auto, unfolding(cx_grammar::specs::Expressions::operator))]
fn operator<'t, 's>(
    context: Context<'_, 's>,
    level: u32,
    spot: Spot<'t, 's>,
) -> Read<'t, 's, BinaryOperator>
    requires load { context.load ≤ 257 }
    requires room { weight spot < 2 ^ 32 }
    ensures exact { Reads (λ o. o) (expressions.operator level (context_of context.entry)) spot.entry result }
    ensures lightens { Lightens 8 spot.entry result }
    ensures next { IfOk result (λ x. x.1.next ≡ spot.entry.next) }
    ensures load { IfOk result (λ x. context.entry.load ≤ 256) }
{
    let (first, spot) = spot.take(context, context.load, Class::Operator(level))?;
    let operator = first.operator_or_plus(context.angle);
    match first.half {
        Half::First => {
            let (_, spot) = spot.take(context, context.load, Class::SecondHalf)?;
            Ok((operator, spot))
        }
        _ => Ok((operator, spot)),
    }
}

/// An operator of a level, its right operand, and the rest of the chain.
#[tactic(auto, unfolding(cx_grammar::specs::Expressions::binary_chain))]
fn binary_chain<'c, 't, 's, F: for<'a, 'b> Fn(Asked<'a, 'b, 's>) -> Read<'b, 's, Reply<'s>>>(
    ask: &F,
    context: Context<'c, 's>,
    level: u32,
    left: Expr<'s>,
    spot: Spot<'t, 's>,
) -> Read<'t, 's, Expr<'s>>
    requires law { Asks (F.pre ask.now) (F.post ask.now) (context.load + 1) }
    requires load { context.load ≤ 257 }
    requires room { weight spot < 2 ^ 32 }
    ensures exact { ReadsNode expr_tree (λ n. expressions.binary_chain (below (context_of context.entry)) level (context_of context.entry) (expr_tree left.entry, n)) spot.entry result }
    ensures lightens { Lightens 0 spot.entry result }
{
    let (operator, spot) = operator(context, level, spot)?;
    let (right, spot) = operand(ask, context.deeper(), level, spot)?;
    let (node, spot) = spot.number();
    let whole = Expr::Binary {
        node,
        at: left.at(),
        operator,
        left: Box::new(context.alloc, left)?,
        right: Box::new(context.alloc, right)?,
    };
    binary_rest(ask, context.deeper(), level, whole, spot)
}

/// The operators of a level behind a left operand, with their operands, grouped from the left.
#[tactic(auto, unfolding(cx_grammar::specs::Expressions::binary_rest))]
pub(crate) fn binary_rest_here<
    'c,
    't,
    's,
    F: for<'a, 'b> Fn(Asked<'a, 'b, 's>) -> Read<'b, 's, Reply<'s>>,
>(
    ask: &F,
    context: Context<'c, 's>,
    level: u32,
    left: Expr<'s>,
    spot: Spot<'t, 's>,
) -> Read<'t, 's, Expr<'s>>
    requires law { Asks (F.pre ask.now) (F.post ask.now) (context.load + 1) }
    requires load { context.load ≤ 257 }
    requires room { weight spot < 2 ^ 32 }
    ensures exact { ReadsNode expr_tree (λ n. expressions.binary_rest (below (context_of context.entry)) level (context_of context.entry) (expr_tree left.entry, n)) spot.entry result }
    ensures lightens { Lightens 0 spot.entry result }
{
    if spot.begins(context, Class::Operator(level)) {
        return binary_chain(ask, context, level, left, spot);
    }
    Ok((left, spot))
}

/// The operators of so many levels behind an operand, the tightest first.
#[tactic(auto, unfolding(cx_grammar::specs::Expressions::rests))]
pub(crate) fn rests<'c, 't, 's, F: for<'a, 'b> Fn(Asked<'a, 'b, 's>) -> Read<'b, 's, Reply<'s>>>(
    ask: &F,
    context: Context<'c, 's>,
    levels: u32,
    operand: Expr<'s>,
    spot: Spot<'t, 's>,
) -> Read<'t, 's, Expr<'s>>
    requires law { Asks (F.pre ask.now) (F.post ask.now) (context.load + 1) }
    requires load { context.load ≤ 257 }
    requires room { weight spot < 2 ^ 32 }
    ensures exact { ReadsNode expr_tree (λ n. expressions.rests (below (context_of context.entry)) levels (context_of context.entry) (expr_tree operand.entry, n)) spot.entry result }
    ensures lightens { Lightens 0 spot.entry result }
{
    let mut left = operand;
    let mut spot = spot;
    'levels: for level in 0..levels {
        let (more, behind) = binary_rest_here(ask, context, level, left, spot)?;
        left = more;
        spot = behind;
    }
    Ok((left, spot))
}

/// An operand of an operator of a level: an expression of the tighter levels.
#[tactic(auto, unfolding(cx_grammar::specs::Expressions::operand))]
pub(crate) fn operand_here<
    'c,
    't,
    's,
    F: for<'a, 'b> Fn(Asked<'a, 'b, 's>) -> Read<'b, 's, Reply<'s>>,
>(ask: &F, context: Context<'c, 's>, level: u32, spot: Spot<'t, 's>) -> Read<'t, 's, Expr<'s>>
    requires law { Asks (F.pre ask.now) (F.post ask.now) (context.load + 1) }
    requires load { context.load ≤ 257 }
    requires room { weight spot < 2 ^ 32 }
    ensures exact { ReadsNode expr_tree (expressions.operand (below (context_of context.entry)) level (context_of context.entry)) spot.entry result }
    ensures lightens { Lightens 4 spot.entry result }
{
    let (operand, spot) = unary_here(ask, context, spot)?;
    rests(ask, context, level, operand, spot)
}

//! Unary expressions ([expr.unary]).

ghost use Rattle.std.specs.Prelude.{◌≡◌, ◌<◌, ◌≤◌, ◌+◌, ◌^◌, codes, true, false, map, IfOk};
ghost use Rattle.cx_tree.specs.Trees.{expr_tree, type_tree, argument_tree};
ghost use Rattle.cx_grammar.specs.Expressions as expressions;
ghost use Rattle.cx_parse_expr.specs.Asks.{Asks};
ghost use Rattle.cx_spots.specs.Spots.{ReadsNode, Lightens, weight, context_of, at, below};

use crate::ask::{Asked, Reply};
use crate::deeper::unary;
use crate::postfix::postfix;
use cx_spots::{Class, Context, Read, Spot};
use cx_tree::Expr;

/// An expression that begins with a prefix operator.
#[tactic(auto, unfolding(cx_grammar::specs::Expressions::prefixed))]
fn prefixed<'c, 't, 's, F: for<'a, 'b> Fn(Asked<'a, 'b, 's>) -> Read<'b, 's, Reply<'s>>>(
    ask: &F,
    context: Context<'c, 's>,
    spot: Spot<'t, 's>,
) -> Read<'t, 's, Expr<'s>>
    requires law { Asks (F.pre ask.now) (F.post ask.now) (context.load + 1) }
    requires load { context.load ≤ 257 }
    requires room { weight spot < 2 ^ 32 }
    ensures exact { ReadsNode expr_tree (expressions.prefixed (below (context_of context.entry)) (context_of context.entry)) spot.entry result }
    ensures lightens { Lightens 4 spot.entry result }
{
    let (prefix, spot) = spot.take(context, context.load + 1, Class::Prefix)?;
    let (operand, spot) = unary(ask, context.deeper(), spot)?;
    let (node, spot) = spot.number();
    let operand = Box::new(context.alloc, operand)?;
    Ok((
        Expr::Unary {
            node,
            at: prefix.token.at,
            operator: prefix.unary_operator(),
            operand,
        },
        spot,
    ))
}

/// A unary expression, by its first token.
#[tactic(auto, unfolding(cx_grammar::specs::Expressions::unary))]
pub(crate) fn unary_here<
    'c,
    't,
    's,
    F: for<'a, 'b> Fn(Asked<'a, 'b, 's>) -> Read<'b, 's, Reply<'s>>,
>(ask: &F, context: Context<'c, 's>, spot: Spot<'t, 's>) -> Read<'t, 's, Expr<'s>>
    requires law { Asks (F.pre ask.now) (F.post ask.now) (context.load + 1) }
    requires load { context.load ≤ 257 }
    requires room { weight spot < 2 ^ 32 }
    ensures exact { ReadsNode expr_tree (expressions.unary (below (context_of context.entry)) (context_of context.entry)) spot.entry result }
    ensures lightens { Lightens 4 spot.entry result }
{
    if spot.begins(context, Class::Prefix) {
        prefixed(ask, context, spot)
    } else {
        postfix(ask, context, spot)
    }
}

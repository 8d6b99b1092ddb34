//! Lists of expressions.

ghost use Rattle.std.specs.Prelude.{◌≡◌, ◌<◌, ◌≤◌, ◌+◌, ◌^◌, codes, true, false, map, IfOk};
ghost use Rattle.cx_tree.specs.Trees.{expr_tree, type_tree, argument_tree};
ghost use Rattle.cx_grammar.specs.Expressions as expressions;
ghost use Rattle.cx_grammar.specs.Production.{repeat};
ghost use Rattle.cx_grammar.specs.Words.{punct};
ghost use Rattle.cx_parse_expr.specs.Asks.{Asks};
ghost use Rattle.cx_spots.specs.Spots.{ReadsNode, Lightens, weight, context_of, at, below};

use crate::ask::{Asked, Reply};
use crate::deeper::expr;
use cx_spots::{Class, Context, Read, Spot};
use cx_tree::Expr;

/// One expression more.
#[tactic(auto, unfolding(cx_grammar::specs::Expressions::more_expr))]
fn more_expr<'c, 't, 's, F: for<'a, 'b> Fn(Asked<'a, 'b, 's>) -> Read<'b, 's, Reply<'s>>>(
    ask: &F,
    context: Context<'c, 's>,
    so_far: Vec<Expr<'s>>,
    spot: Spot<'t, 's>,
) -> Read<'t, 's, Vec<Expr<'s>>>
    requires law { Asks (F.pre ask.now) (F.post ask.now) context.load }
    requires load { context.load ≤ 257 }
    requires room { weight spot < 2 ^ 32 }
    ensures exact { ReadsNode (λ v. map expr_tree v.items) (λ n. expressions.more_expr (at (context_of context.entry)) (context_of context.entry) (map expr_tree so_far.entry.items, n)) spot.entry result }
    ensures lightens { Lightens 4 spot.entry result }
{
    let (_, spot) = spot.take(context, context.load, Class::Punct(","))?;
    let (more, spot) = expr(ask, context, spot)?;
    let mut exprs = so_far;
    exprs.push(more)?;
    Ok((exprs, spot))
}

/// Any number of expressions more.
fn more_exprs<'c, 't, 's, F: for<'a, 'b> Fn(Asked<'a, 'b, 's>) -> Read<'b, 's, Reply<'s>>>(
    ask: &F,
    context: Context<'c, 's>,
    so_far: Vec<Expr<'s>>,
    spot: Spot<'t, 's>,
) -> Read<'t, 's, Vec<Expr<'s>>>
    requires law { Asks (F.pre ask.now) (F.post ask.now) context.load }
    requires load { context.load ≤ 257 }
    requires room { weight spot < 2 ^ 32 }
    ensures exact { ReadsNode (λ v. map expr_tree v.items) (λ n. repeat (punct (codes ",")) (expressions.more_expr (at (context_of context.entry)) (context_of context.entry)) (map expr_tree so_far.entry.items, n)) spot.entry result }
    ensures lightens { Lightens 0 spot.entry result }
{
    let mut exprs = so_far;
    let mut spot = spot;
    'exprs: while spot.begins(context, Class::Punct(",")) {
        let (more, behind) = more_expr(ask, context, exprs, spot)?;
        exprs = more;
        spot = behind;
    }
    Ok((exprs, spot))
}

/// One or more expressions.
#[tactic(auto, unfolding(cx_grammar::specs::Expressions::some_exprs))]
fn some_exprs<'c, 't, 's, F: for<'a, 'b> Fn(Asked<'a, 'b, 's>) -> Read<'b, 's, Reply<'s>>>(
    ask: &F,
    context: Context<'c, 's>,
    spot: Spot<'t, 's>,
) -> Read<'t, 's, Vec<Expr<'s>>>
    requires law { Asks (F.pre ask.now) (F.post ask.now) context.load }
    requires load { context.load ≤ 257 }
    requires room { weight spot < 2 ^ 32 }
    ensures exact { ReadsNode (λ v. map expr_tree v.items) (expressions.some_exprs (at (context_of context.entry)) (context_of context.entry)) spot.entry result }
    ensures lightens { Lightens 4 spot.entry result }
{
    let (first, spot) = expr(ask, context, spot)?;
    let mut exprs: Vec<Expr<'s>> = Vec::new(context.alloc);
    exprs.push(first)?;
    more_exprs(ask, context, exprs, spot)
}

/// None or more expressions, up to what closes the list.
#[tactic(auto, unfolding(cx_grammar::specs::Expressions::exprs_until))]
pub(crate) fn exprs_until<
    'c,
    't,
    's,
    F: for<'a, 'b> Fn(Asked<'a, 'b, 's>) -> Read<'b, 's, Reply<'s>>,
>(
    ask: &F,
    context: Context<'c, 's>,
    closing: &str,
    spot: Spot<'t, 's>,
) -> Read<'t, 's, Vec<Expr<'s>>>
    requires law { Asks (F.pre ask.now) (F.post ask.now) context.load }
    requires load { context.load ≤ 257 }
    requires room { weight spot < 2 ^ 32 }
    ensures exact { ReadsNode (λ v. map expr_tree v.items) (expressions.exprs_until closing.now (at (context_of context.entry)) (context_of context.entry)) spot.entry result }
    ensures lightens { Lightens 0 spot.entry result }
{
    if spot.begins(context, Class::Punct(closing)) {
        return Ok((Vec::new(context.alloc), spot));
    }
    some_exprs(ask, context, spot)
}

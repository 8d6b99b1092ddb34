//! Postfix expressions ([expr.post]).

ghost use Rattle.std.specs.Prelude.{◌≡◌, ◌<◌, ◌≤◌, ◌+◌, ◌^◌, codes, true, false, map, IfOk};
ghost use Rattle.cx_tree.specs.Trees.{expr_tree, type_tree, argument_tree};
ghost use Rattle.cx_grammar.specs.Expressions as expressions;
ghost use Rattle.cx_parse_expr.specs.Asks.{Asks};
ghost use Rattle.cx_parse_expr.specs.Views.{calling_of};
ghost use Rattle.cx_spots.specs.Spots.{ReadsNode, Lightens, weight, context_of, at, below};

use crate::ask::{Asked, Reply};
use crate::deeper::{called, tail};
use crate::lists::exprs_until;
use crate::primary::{Calling, primary};
use cx_spots::{Class, Context, Read, Spot};
use cx_tree::Expr;

/// A member of an object ([expr.ref]).
#[tactic(auto, unfolding(cx_grammar::specs::Expressions::member))]
fn member<'c, 't, 's, F: for<'a, 'b> Fn(Asked<'a, 'b, 's>) -> Read<'b, 's, Reply<'s>>>(
    ask: &F,
    context: Context<'c, 's>,
    operand: Expr<'s>,
    spot: Spot<'t, 's>,
) -> Read<'t, 's, Expr<'s>>
    requires law { Asks (F.pre ask.now) (F.post ask.now) (context.load + 1) }
    requires load { context.load ≤ 257 }
    requires room { weight spot < 2 ^ 32 }
    ensures exact { ReadsNode expr_tree (λ n. expressions.member (below (context_of context.entry)) (context_of context.entry) (expr_tree operand.entry, n)) spot.entry result }
    ensures lightens { Lightens 0 spot.entry result }
{
    let (_, spot) = spot.take(context, context.load, Class::Punct("."))?;
    let (name, spot) = spot.take(context, context.load + 1, Class::AnyName)?;
    let (node, spot) = spot.number();
    let member = Expr::Member {
        node,
        at: operand.at(),
        object: Box::new(context.alloc, operand)?,
        name: name.token.text,
    };
    tail(ask, context.deeper(), Calling::May, member, spot)
}

/// `++` or `--` ([expr.post.incr]).
#[tactic(auto, unfolding(cx_grammar::specs::Expressions::step))]
fn step<'c, 't, 's, F: for<'a, 'b> Fn(Asked<'a, 'b, 's>) -> Read<'b, 's, Reply<'s>>>(
    ask: &F,
    context: Context<'c, 's>,
    operand: Expr<'s>,
    spot: Spot<'t, 's>,
) -> Read<'t, 's, Expr<'s>>
    requires law { Asks (F.pre ask.now) (F.post ask.now) (context.load + 1) }
    requires load { context.load ≤ 257 }
    requires room { weight spot < 2 ^ 32 }
    ensures exact { ReadsNode expr_tree (λ n. expressions.step (below (context_of context.entry)) (context_of context.entry) (expr_tree operand.entry, n)) spot.entry result }
    ensures lightens { Lightens 0 spot.entry result }
{
    let (step, spot) = spot.take(context, context.load, Class::Step)?;
    let (node, spot) = spot.number();
    let stepped = Expr::Postfix {
        node,
        at: operand.at(),
        operator: step.postfix_operator(),
        operand: Box::new(context.alloc, operand)?,
    };
    tail(ask, context.deeper(), Calling::No, stepped, spot)
}

/// What stands behind an operand that no call may follow.
#[tactic(auto, unfolding(cx_grammar::specs::Expressions::tail_behind))]
fn tail_behind<'c, 't, 's, F: for<'a, 'b> Fn(Asked<'a, 'b, 's>) -> Read<'b, 's, Reply<'s>>>(
    ask: &F,
    context: Context<'c, 's>,
    operand: Expr<'s>,
    spot: Spot<'t, 's>,
) -> Read<'t, 's, Expr<'s>>
    requires law { Asks (F.pre ask.now) (F.post ask.now) (context.load + 1) }
    requires load { context.load ≤ 257 }
    requires room { weight spot < 2 ^ 32 }
    ensures exact { ReadsNode expr_tree (λ n. expressions.tail_behind (below (context_of context.entry)) (context_of context.entry) (expr_tree operand.entry, n)) spot.entry result }
    ensures lightens { Lightens 0 spot.entry result }
{
    if spot.begins(context, Class::Punct(".")) {
        return member(ask, context, operand, spot);
    }
    if spot.begins(context, Class::Step) {
        return step(ask, context, operand, spot);
    }
    Ok((operand, spot))
}

/// What stands behind the `(` of a call ([expr.call]).
#[tactic(auto, unfolding(cx_grammar::specs::Expressions::called))]
pub(crate) fn called_here<
    'c,
    't,
    's,
    F: for<'a, 'b> Fn(Asked<'a, 'b, 's>) -> Read<'b, 's, Reply<'s>>,
>(
    ask: &F,
    context: Context<'c, 's>,
    operand: Expr<'s>,
    spot: Spot<'t, 's>,
) -> Read<'t, 's, Expr<'s>>
    requires law { Asks (F.pre ask.now) (F.post ask.now) (context.load + 1) }
    requires load { context.load ≤ 256 }
    requires room { weight spot < 2 ^ 32 }
    ensures exact { ReadsNode expr_tree (λ n. expressions.called (below (context_of context.entry)) (context_of context.entry) (expr_tree operand.entry, n)) spot.entry result }
    ensures lightens { Lightens 0 spot.entry result }
{
    let (arguments, spot) = exprs_until(ask, context.inside(), ")", spot)?;
    let (_, spot) = spot.take(context, context.load + 1, Class::Punct(")"))?;
    let (node, spot) = spot.number();
    let call = Expr::Call {
        node,
        at: operand.at(),
        callee: Box::new(context.alloc, operand)?,
        arguments,
    };
    tail_behind(ask, context, call, spot)
}

/// A call.
#[tactic(auto, unfolding(cx_grammar::specs::Expressions::call))]
fn call<'c, 't, 's, F: for<'a, 'b> Fn(Asked<'a, 'b, 's>) -> Read<'b, 's, Reply<'s>>>(
    ask: &F,
    context: Context<'c, 's>,
    operand: Expr<'s>,
    spot: Spot<'t, 's>,
) -> Read<'t, 's, Expr<'s>>
    requires law { Asks (F.pre ask.now) (F.post ask.now) (context.load + 1) }
    requires load { context.load ≤ 257 }
    requires room { weight spot < 2 ^ 32 }
    ensures exact { ReadsNode expr_tree (λ n. expressions.call (below (context_of context.entry)) (context_of context.entry) (expr_tree operand.entry, n)) spot.entry result }
    ensures lightens { Lightens 0 spot.entry result }
{
    let (_, spot) = spot.take(context, context.load + 1, Class::Punct("("))?;
    called(ask, context.deeper(), operand, spot)
}

/// The postfix operators behind an operand.
#[tactic(auto, unfolding(cx_grammar::specs::Expressions::tail))]
pub(crate) fn tail_here<
    'c,
    't,
    's,
    F: for<'a, 'b> Fn(Asked<'a, 'b, 's>) -> Read<'b, 's, Reply<'s>>,
>(
    ask: &F,
    context: Context<'c, 's>,
    calling: Calling,
    operand: Expr<'s>,
    spot: Spot<'t, 's>,
) -> Read<'t, 's, Expr<'s>>
    requires law { Asks (F.pre ask.now) (F.post ask.now) (context.load + 1) }
    requires load { context.load ≤ 257 }
    requires room { weight spot < 2 ^ 32 }
    ensures exact { ReadsNode expr_tree (λ n. expressions.tail (below (context_of context.entry)) (calling_of calling) (context_of context.entry) (expr_tree operand.entry, n)) spot.entry result }
    ensures lightens { Lightens 0 spot.entry result }
{
    match calling {
        Calling::No => tail_behind(ask, context, operand, spot),
        Calling::May => {
            if spot.begins(context, Class::Punct("(")) {
                call(ask, context, operand, spot)
            } else {
                tail_behind(ask, context, operand, spot)
            }
        }
        Calling::Must => call(ask, context, operand, spot),
    }
}

/// A postfix expression.
#[tactic(auto, unfolding(cx_grammar::specs::Expressions::postfix))]
pub(crate) fn postfix<'c, 't, 's, F: for<'a, 'b> Fn(Asked<'a, 'b, 's>) -> Read<'b, 's, Reply<'s>>>(
    ask: &F,
    context: Context<'c, 's>,
    spot: Spot<'t, 's>,
) -> Read<'t, 's, Expr<'s>>
    requires law { Asks (F.pre ask.now) (F.post ask.now) (context.load + 1) }
    requires load { context.load ≤ 257 }
    requires room { weight spot < 2 ^ 32 }
    ensures exact { ReadsNode expr_tree (expressions.postfix (below (context_of context.entry)) (context_of context.entry)) spot.entry result }
    ensures lightens { Lightens 4 spot.entry result }
{
    let (primary, spot) = primary(ask, context, spot)?;
    tail_here(ask, context, primary.calling, primary.expr, spot)
}

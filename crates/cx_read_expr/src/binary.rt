//! Binary expressions ([expr.mul] to [expr.log.or]).

ghost use Rattle.std.specs.Prelude.{◌≡◌, ◌<◌, suc};
ghost use Rattle.cx_syntax.specs.Precedence.{operator};
ghost use Rattle.cx_syntax.specs.Productions.{repeat};
ghost use Rattle.cx_cursor.specs.Reads.{Reads};
ghost use Rattle.cx_productions.specs.Expressions as expressions;
ghost use Rattle.cx_productions.specs.Levels.{levels};
ghost use Rattle.cx_read_expr.specs.Parts.{boxed_expr, chain_of};

use crate::below::expr_below;
use cx_cursor::{Class, Cursor, Half, boxed};
use cx_syntax::{BinaryOperator, Context, Stopped};
use cx_trees::Expr;

/// A chain of binary operators so far, and where its next operator stands.
#[derive(Drop)]
pub struct Chain<'s> {
    pub(crate) tree: Box<Expr<'s>>,
    pub(crate) within: Context,
}

/// A binary operator of a level; `>>` is two pieces.
#[tactic(auto, unfolding(cx_productions::specs::Expressions::binary_operator))]
fn binary_operator(
    cursor: &mut Cursor<'_, '_>,
    level: u32,
    context: Context,
) -> Result<BinaryOperator, Stopped>
    ensures { Reads (λ o. o) (expressions.binary_operator level context) cursor.old result cursor.new }
{
    let sign = cursor.take(context, Class::Operator(level, context.lists))?;
    let operator = sign.operator_or_add(context.lists);
    if sign.half == Half::First {
        cursor.take(context, Class::SecondHalf)?;
    }
    Ok(operator)
}

/// One operator of a level and its right operand more.
#[cycle(reading)]
#[tactic(auto, unfolding(cx_productions::specs::Expressions::chain_turn))]
fn binary_turn<'s>(
    cursor: &mut Cursor<'_, 's>,
    depth: u32,
    level: u32,
    so_far: Chain<'s>,
) -> Result<Chain<'s>, Stopped>
    requires { level < 10 }
    ensures { Reads chain_of (expressions.chain_turn (expressions.binary_operator (suc level)) ((levels depth).expr level) (chain_of so_far.entry)) cursor.old result cursor.new }
{
    let within = so_far.within;
    let operator = binary_operator(cursor, level + 1, within)?;
    let right = expr_below(cursor, depth, level, within.deeper())?;
    let node = cursor.number()?;
    let binary = Expr::Binary {
        node,
        at: so_far.tree.at(),
        operator,
        left: so_far.tree,
        right,
    };
    let tree = boxed(cursor.alloc(), binary)?;
    Ok(Chain {
        tree,
        within: within.deeper(),
    })
}

/// Any number of operators of a level more.
#[cycle(reading)]
fn binary_turns<'s>(
    cursor: &mut Cursor<'_, 's>,
    depth: u32,
    level: u32,
    so_far: Chain<'s>,
) -> Result<Chain<'s>, Stopped>
    requires { level < 10 }
    ensures { Reads chain_of (repeat (λ x. operator (suc level) x.within.lists) (expressions.chain_turn (expressions.binary_operator (suc level)) ((levels depth).expr level)) (chain_of so_far.entry)) cursor.old result cursor.new }
{
    let mut chain = so_far;
    'turns: while cursor.begins(Class::Operator(level + 1, chain.within.lists)) {
        chain = binary_turn(cursor, depth, level, chain)?;
    }
    Ok(chain)
}

/// The operators of a level after an operand of the next tighter one.
#[cycle(reading)]
#[tactic(auto, unfolding(cx_productions::specs::Expressions::binary_chain))]
fn binary_chain<'s>(
    cursor: &mut Cursor<'_, 's>,
    depth: u32,
    level: u32,
    left: Box<Expr<'s>>,
    context: Context,
) -> Result<Box<Expr<'s>>, Stopped>
    requires { level < 10 }
    ensures { Reads boxed_expr (expressions.binary_chain (levels depth) level context (boxed_expr left.entry)) cursor.old result cursor.new }
{
    let first = Chain {
        tree: left,
        within: context,
    };
    let chain = binary_turns(cursor, depth, level, first)?;
    Ok(chain.tree)
}

/// The operators of a level and of all tighter ones, after a unary expression.
#[cycle(reading)]
#[tactic(auto, unfolding(cx_productions::specs::Expressions::binary_after))]
pub(crate) fn binary_after<'s>(
    cursor: &mut Cursor<'_, 's>,
    depth: u32,
    level: u32,
    first: Box<Expr<'s>>,
    context: Context,
) -> Result<Box<Expr<'s>>, Stopped>
    requires { level < 11 }
    ensures { Reads boxed_expr (expressions.binary_after (levels depth) level context (boxed_expr first.entry)) cursor.old result cursor.new }
{
    if level == 0 {
        return Ok(first);
    }
    let left = binary_after(cursor, depth, level - 1, first, context)?;
    binary_chain(cursor, depth, level - 1, left, context)
}

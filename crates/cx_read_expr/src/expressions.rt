//! Expressions ([expr]): unary ones, conditionals and assignments.

ghost use Rattle.cx_cursor.specs.Reads.{Reads};
ghost use Rattle.cx_productions.specs.Expressions as expressions;
ghost use Rattle.cx_productions.specs.Levels.{levels};
ghost use Rattle.cx_read_expr.specs.Parts.{boxed_expr, operand_of};

use crate::below::expr_below;
use crate::binary::binary_after;
use crate::operands::Operand;
use crate::postfix::{postfix_after, postfix_expr};
use crate::precedence::{EXPRESSION_LEVEL, LOGICAL_OR_LEVEL, UNARY_LEVEL};
use cx_cursor::{Class, Cursor, boxed};
use cx_syntax::{Context, Stopped};
use cx_tokens::Punctuator;
use cx_trees::Expr;

/// A prefix operator and its operand ([expr.unary]).
#[cycle(reading)]
#[tactic(auto, unfolding(cx_productions::specs::Expressions::prefixed))]
fn prefixed<'s>(
    cursor: &mut Cursor<'_, 's>,
    depth: u32,
    context: Context,
) -> Result<Box<Expr<'s>>, Stopped>
    ensures { Reads boxed_expr (expressions.prefixed (levels depth) context) cursor.old result cursor.new }
{
    let sign = cursor.take(context.deeper(), Class::Prefix)?;
    let operand = expr_below(cursor, depth, UNARY_LEVEL, context.deeper())?;
    let node = cursor.number()?;
    let unary = Expr::Unary {
        node,
        at: sign.token.at,
        operator: sign.unary_operator(),
        operand,
    };
    boxed(cursor.alloc(), unary)
}

/// A unary expression.
#[cycle(reading)]
#[tactic(auto, unfolding(cx_productions::specs::Expressions::unary))]
fn unary<'s>(
    cursor: &mut Cursor<'_, 's>,
    depth: u32,
    context: Context,
) -> Result<Box<Expr<'s>>, Stopped>
    ensures { Reads boxed_expr (expressions.unary (levels depth) context) cursor.old result cursor.new }
{
    if cursor.begins(Class::Prefix) {
        prefixed(cursor, depth, context)
    } else {
        postfix_expr(cursor, depth, context)
    }
}

/// `?`, an expression, `:` and an expression, after a condition ([expr.cond]).
#[cycle(reading)]
#[tactic(auto, unfolding(cx_productions::specs::Expressions::conditional))]
fn conditional<'s>(
    cursor: &mut Cursor<'_, 's>,
    depth: u32,
    condition: Box<Expr<'s>>,
    context: Context,
) -> Result<Box<Expr<'s>>, Stopped>
    ensures { Reads boxed_expr (expressions.conditional (levels depth) context (boxed_expr condition.entry)) cursor.old result cursor.new }
{
    cursor.take(context, Class::Punct(Punctuator::Question))?;
    let then = expr_below(cursor, depth, EXPRESSION_LEVEL, context.deeper())?;
    cursor.take(context.deeper(), Class::Punct(Punctuator::Colon))?;
    let otherwise = expr_below(cursor, depth, EXPRESSION_LEVEL, context.deeper())?;
    let node = cursor.number()?;
    let conditional = Expr::Conditional {
        node,
        at: condition.at(),
        condition,
        then,
        otherwise,
    };
    boxed(cursor.alloc(), conditional)
}

/// An assignment operator and an expression, after a target ([expr.ass]).
#[cycle(reading)]
#[tactic(auto, unfolding(cx_productions::specs::Expressions::assignment))]
fn assignment<'s>(
    cursor: &mut Cursor<'_, 's>,
    depth: u32,
    target: Box<Expr<'s>>,
    context: Context,
) -> Result<Box<Expr<'s>>, Stopped>
    ensures { Reads boxed_expr (expressions.assignment (levels depth) context (boxed_expr target.entry)) cursor.old result cursor.new }
{
    let sign = cursor.take(context, Class::Assignment(context.lists))?;
    let value = expr_below(cursor, depth, EXPRESSION_LEVEL, context.deeper())?;
    let node = cursor.number()?;
    let assignment = Expr::Assignment {
        node,
        at: target.at(),
        operator: sign.assignment_operator(),
        target,
        value,
    };
    boxed(cursor.alloc(), assignment)
}

/// What makes a conditional or an assignment of a binary expression, or nothing.
#[cycle(reading)]
#[tactic(auto, unfolding(cx_productions::specs::Expressions::choice_after))]
fn choice_after<'s>(
    cursor: &mut Cursor<'_, 's>,
    depth: u32,
    left: Box<Expr<'s>>,
    context: Context,
) -> Result<Box<Expr<'s>>, Stopped>
    ensures { Reads boxed_expr (expressions.choice_after (levels depth) context (boxed_expr left.entry)) cursor.old result cursor.new }
{
    if cursor.begins(Class::Punct(Punctuator::Question)) {
        return conditional(cursor, depth, left, context);
    }
    if cursor.begins(Class::Assignment(context.lists)) {
        return assignment(cursor, depth, left, context);
    }
    Ok(left)
}

/// What makes an expression of a unary one.
#[cycle(reading)]
#[tactic(auto, unfolding(cx_productions::specs::Expressions::expr_after))]
fn expr_after<'s>(
    cursor: &mut Cursor<'_, 's>,
    depth: u32,
    first: Box<Expr<'s>>,
    context: Context,
) -> Result<Box<Expr<'s>>, Stopped>
    ensures { Reads boxed_expr (expressions.expr_after (levels depth) context (boxed_expr first.entry)) cursor.old result cursor.new }
{
    let left = binary_after(cursor, depth, LOGICAL_OR_LEVEL, first, context)?;
    choice_after(cursor, depth, left, context)
}

/// An expression of a level: operators of looser levels are none of its own.
#[cycle(reading)]
#[tactic(auto, unfolding(cx_productions::specs::Expressions::expr))]
pub fn expr<'s>(
    cursor: &mut Cursor<'_, 's>,
    depth: u32,
    level: u32,
    context: Context,
) -> Result<Box<Expr<'s>>, Stopped>
    ensures { Reads boxed_expr (expressions.expr (levels depth) level context) cursor.old result cursor.new }
{
    let first = unary(cursor, depth, context)?;
    if level >= EXPRESSION_LEVEL {
        expr_after(cursor, depth, first, context)
    } else {
        binary_after(cursor, depth, level, first, context)
    }
}

/// An expression whose first operand is read.
#[cycle(reading)]
#[tactic(auto, unfolding(cx_productions::specs::Expressions::expr_of))]
pub fn expr_of<'s>(
    cursor: &mut Cursor<'_, 's>,
    depth: u32,
    operand: Operand<'s>,
    context: Context,
) -> Result<Box<Expr<'s>>, Stopped>
    ensures { Reads boxed_expr (expressions.expr_of (levels depth) context (operand_of operand.entry)) cursor.old result cursor.new }
{
    let first = postfix_after(cursor, depth, operand, context)?;
    expr_after(cursor, depth, first, context)
}

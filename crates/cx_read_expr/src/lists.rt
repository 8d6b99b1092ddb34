//! Lists of expressions.

ghost use Rattle.std.specs.Prelude.{◌≡◌, [], ◌∷◌, ◌++◌, map, IfOk, IfErr};
ghost use Rattle.cx_tokens.specs.declared.punctuator.Punctuator.TheVariants as punctuator;
ghost use Rattle.cx_syntax.specs.declared.stopped.Stopped.TheVariants.{NoMemory};
ghost use Rattle.cx_syntax.specs.Classes.{punct};
ghost use Rattle.cx_syntax.specs.Combinators.{one_more, separated};
ghost use Rattle.cx_syntax.specs.Productions.{repeat};
ghost use Rattle.cx_cursor.specs.Classes.{meaning};
ghost use Rattle.cx_cursor.specs.Reads.{Reads};
ghost use Rattle.cx_trees.specs.Views.{expr_tree};
ghost use Rattle.cx_productions.specs.Levels.{levels};
ghost use Rattle.cx_productions.specs.Primaries as primaries;
ghost use Rattle.cx_read_expr.specs.Parts.{all_exprs};

use crate::below::expr_below;
use crate::precedence::EXPRESSION_LEVEL;
use cx_cursor::{Class, Cursor};
use cx_syntax::{Context, Stopped};
use cx_tokens::Punctuator;
use cx_trees::Expr;

/// Expressions with one more at their end. Refuses for want of memory alone.
fn with_expr<'s>(so_far: Vec<Expr<'s>>, expr: Box<Expr<'s>>) -> Result<Vec<Expr<'s>>, Stopped>
    ensures exprs { IfOk result (λ v. v.items ≡ so_far.entry.items ++ expr.entry.value ∷ []) }
    ensures only_memory { IfErr result (λ e. e ≡ NoMemory) }
{
    let mut exprs = so_far;
    exprs.push(Box::into_inner(expr))?;
    Ok(exprs)
}

/// `,` and one expression more.
#[cycle(reading)]
fn more_expr<'s>(
    cursor: &mut Cursor<'_, 's>,
    depth: u32,
    so_far: Vec<Expr<'s>>,
    context: Context,
) -> Result<Vec<Expr<'s>>, Stopped>
    ensures { Reads all_exprs (one_more context ((levels depth).expr 11 context) (map expr_tree so_far.entry.items)) cursor.old result cursor.new }
{
    cursor.take(context, Class::Punct(Punctuator::Comma))?;
    let expr = expr_below(cursor, depth, EXPRESSION_LEVEL, context)?;
    let exprs = with_expr(so_far, expr)?;
    Ok(exprs)
}

/// Any number of expressions more.
#[cycle(reading)]
fn exprs_after<'s>(
    cursor: &mut Cursor<'_, 's>,
    depth: u32,
    so_far: Vec<Expr<'s>>,
    context: Context,
) -> Result<Vec<Expr<'s>>, Stopped>
    ensures { Reads all_exprs (repeat (λ so_far. punct punctuator.Comma) (one_more context ((levels depth).expr 11 context)) (map expr_tree so_far.entry.items)) cursor.old result cursor.new }
{
    let mut exprs = so_far;
    'turns: while cursor.begins(Class::Punct(Punctuator::Comma)) {
        exprs = more_expr(cursor, depth, exprs, context)?;
    }
    Ok(exprs)
}

/// One expression or more.
#[cycle(reading)]
fn exprs<'s>(
    cursor: &mut Cursor<'_, 's>,
    depth: u32,
    context: Context,
) -> Result<Vec<Expr<'s>>, Stopped>
    ensures { Reads all_exprs (separated context ((levels depth).expr 11 context)) cursor.old result cursor.new }
{
    let first = expr_below(cursor, depth, EXPRESSION_LEVEL, context)?;
    let exprs = with_expr(Vec::new(cursor.alloc()), first)?;
    exprs_after(cursor, depth, exprs, context)
}

/// None or more expressions, up to what closes the list.
#[cycle(reading)]
#[tactic(auto, unfolding(cx_productions::specs::Primaries::expr_list))]
pub fn expr_list<'s>(
    cursor: &mut Cursor<'_, 's>,
    depth: u32,
    close: Class,
    context: Context,
) -> Result<Vec<Expr<'s>>, Stopped>
    ensures { Reads all_exprs (primaries.expr_list (meaning close) (levels depth) context) cursor.old result cursor.new }
{
    if cursor.begins(close) {
        return Ok(Vec::new(cursor.alloc()));
    }
    exprs(cursor, depth, context)
}

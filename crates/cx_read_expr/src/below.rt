//! What stands again within other productions, one level deeper.

ghost use Rattle.std.specs.Prelude.{◌≡◌, Err};
ghost use Rattle.cx_syntax.specs.Productions.{read_closed};
ghost use Rattle.cx_cursor.specs.Reads.{Reads};
ghost use Rattle.cx_trees.specs.Views.{argument_tree};
ghost use Rattle.cx_productions.specs.Levels.{levels};
ghost use Rattle.cx_read_expr.specs.Parts.{boxed_expr};

use crate::arguments::argument;
use crate::expressions::expr;
use cx_cursor::{Class, Cursor};
use cx_syntax::{Context, Stopped};
use cx_trees::{Expr, TemplateArgument};

/// Why nothing is read where the levels are spent.
#[tactic(auto, using(crate::proofs::Closed::closed_more, crate::proofs::Closed::closed_none))]
fn no_levels(cursor: &Cursor<'_, '_>) -> Stopped
    ensures { Err result ≡ read_closed {A = Unit {0}} cursor.now.left }
{
    if cursor.begins_another(Class::Nothing) {
        Stopped::Exhausted
    } else {
        Stopped::Ended
    }
}

/// An expression of a level.
#[cycle(reading)]
#[tactic(auto, using(crate::proofs::Closed::closed_as), unfolding(cx_productions::specs::Levels::levels))]
pub fn expr_below<'s>(
    cursor: &mut Cursor<'_, 's>,
    depth: u32,
    level: u32,
    context: Context,
) -> Result<Box<Expr<'s>>, Stopped>
    ensures { Reads boxed_expr ((levels depth).expr level context) cursor.old result cursor.new }
{
    if depth == 0 {
        return Err(no_levels(cursor));
    }
    expr(cursor, depth - 1, level, context)
}

/// A template argument.
#[cycle(reading)]
#[tactic(auto, using(crate::proofs::Closed::closed_as), unfolding(cx_productions::specs::Levels::levels))]
pub(crate) fn argument_below<'s>(
    cursor: &mut Cursor<'_, 's>,
    depth: u32,
    context: Context,
) -> Result<TemplateArgument<'s>, Stopped>
    ensures { Reads argument_tree ((levels depth).argument context) cursor.old result cursor.new }
{
    if depth == 0 {
        return Err(no_levels(cursor));
    }
    argument(cursor, depth - 1, context)
}

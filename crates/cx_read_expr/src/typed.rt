//! Primaries that begin with a type: names after it ([expr.prim.id.qual]), and lists in braces ([expr.type.conv]).

ghost use Rattle.cx_cursor.specs.Reads.{Reads};
ghost use Rattle.cx_productions.specs.Levels.{levels};
ghost use Rattle.cx_productions.specs.Primaries as primaries;
ghost use Rattle.cx_read_expr.specs.Parts.{boxed_expr, placed_core};

use crate::cores::{PlacedCore, as_type, core, head_core};
use crate::lists::expr_list;
use crate::names::member_names;
use crate::scalars::{scalar_at, scalar_of_word};
use cx_cursor::{Class, Cursor, boxed};
use cx_syntax::{Context, Stopped};
use cx_tokens::Punctuator;
use cx_trees::Expr;

/// A list in braces, after a core.
#[cycle(reading)]
#[tactic(auto, unfolding(cx_productions::specs::Primaries::list_after))]
pub fn list_after<'s>(
    cursor: &mut Cursor<'_, 's>,
    depth: u32,
    core: PlacedCore<'s>,
    context: Context,
) -> Result<Box<Expr<'s>>, Stopped>
    ensures { Reads boxed_expr (primaries.list_after (levels depth) context (placed_core core.entry)) cursor.old result cursor.new }
{
    let at = core.at;
    let close = Class::Punct(Punctuator::RightBrace);
    let of = as_type(cursor, core)?;
    cursor.take(context.deeper(), Class::Punct(Punctuator::LeftBrace))?;
    let items = expr_list(cursor, depth, close, context.inside())?;
    cursor.take(context.deeper(), close)?;
    let node = cursor.number()?;
    boxed(
        cursor.alloc(),
        Expr::List {
            node,
            at,
            of,
            items,
        },
    )
}

/// Names, after a head.
#[tactic(auto, unfolding(cx_productions::specs::Primaries::names_after))]
pub(crate) fn names_after<'s>(
    cursor: &mut Cursor<'_, 's>,
    core: PlacedCore<'s>,
    context: Context,
) -> Result<Box<Expr<'s>>, Stopped>
    ensures { Reads boxed_expr (primaries.names_after context (placed_core core.entry)) cursor.old result cursor.new }
{
    let at = core.at;
    let head = as_type(cursor, core)?;
    let names = member_names(cursor, context)?;
    let node = cursor.number()?;
    boxed(
        cursor.alloc(),
        Expr::Qualified {
            node,
            at,
            head,
            names,
        },
    )
}

/// A list in braces, or names, after a head.
#[cycle(reading)]
#[tactic(auto, unfolding(cx_productions::specs::Primaries::after_head))]
pub fn after_head<'s>(
    cursor: &mut Cursor<'_, 's>,
    depth: u32,
    core: PlacedCore<'s>,
    context: Context,
) -> Result<Box<Expr<'s>>, Stopped>
    ensures { Reads boxed_expr (primaries.after_head (levels depth) context (placed_core core.entry)) cursor.old result cursor.new }
{
    if cursor.begins(Class::Punct(Punctuator::LeftBrace)) {
        list_after(cursor, depth, core, context)
    } else {
        names_after(cursor, core, context)
    }
}

/// A primary that begins with the name of a type or of a class template.
#[cycle(reading)]
#[tactic(auto, unfolding(cx_productions::specs::Primaries::head_primary))]
pub(crate) fn head_primary<'s>(
    cursor: &mut Cursor<'_, 's>,
    depth: u32,
    context: Context,
) -> Result<Box<Expr<'s>>, Stopped>
    ensures { Reads boxed_expr (primaries.head_primary (levels depth) context) cursor.old result cursor.new }
{
    let core = head_core(cursor, depth, context.deeper())?;
    after_head(cursor, depth, core, context)
}

/// A primary that begins with another core that is no scalar.
#[cycle(reading)]
#[tactic(auto, unfolding(cx_productions::specs::Primaries::core_primary))]
pub(crate) fn core_primary<'s>(
    cursor: &mut Cursor<'_, 's>,
    depth: u32,
    context: Context,
) -> Result<Box<Expr<'s>>, Stopped>
    ensures { Reads boxed_expr (primaries.core_primary (levels depth) context) cursor.old result cursor.new }
{
    let core = core(cursor, depth, context.deeper())?;
    list_after(cursor, depth, core, context)
}

/// A primary that begins with a scalar, of one word.
#[cycle(reading)]
#[tactic(auto, unfolding(cx_productions::specs::Primaries::scalar_primary))]
pub(crate) fn scalar_primary<'s>(
    cursor: &mut Cursor<'_, 's>,
    depth: u32,
    context: Context,
) -> Result<Box<Expr<'s>>, Stopped>
    ensures { Reads boxed_expr (primaries.scalar_primary (levels depth) context) cursor.old result cursor.new }
{
    let word = cursor.take(context.deeper(), Class::ScalarWord)?;
    let core = scalar_at(cursor.alloc(), word, scalar_of_word(word))?;
    list_after(cursor, depth, core, context)
}

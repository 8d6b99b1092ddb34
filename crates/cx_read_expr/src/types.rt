//! Types as they are written ([dcl.type]).

ghost use Rattle.cx_cursor.specs.Reads.{Reads};
ghost use Rattle.cx_productions.specs.Types as types;
ghost use Rattle.cx_productions.specs.Levels.{levels};
ghost use Rattle.cx_read_expr.specs.Parts.{placed_core, boxed_type};

use crate::cores::{PlacedCore, core};
use crate::scalars::flag;
use cx_base::Place;
use cx_cursor::{Class, Cursor, boxed};
use cx_syntax::{Context, Stopped};
use cx_tokens::{Punctuator, Word};
use cx_trees::TypeSyn;

/// `const`, where none is before the core, or nothing.
#[tactic(auto, unfolding(cx_productions::specs::Types::const_after))]
fn const_after(cursor: &mut Cursor<'_, '_>, before: bool, context: Context) -> Result<bool, Stopped>
    ensures { Reads (λ b. b) (types.const_after context before) cursor.old result cursor.new }
{
    if before {
        return Ok(true);
    }
    flag(cursor, Class::Word(Word::Const), context.deeper())
}

/// What comes after a core, `const` standing before it or not. The type stands at a place.
#[tactic(auto, unfolding(cx_productions::specs::Types::type_after))]
pub fn type_after<'s>(
    cursor: &mut Cursor<'_, 's>,
    at: Place,
    before: bool,
    core: PlacedCore<'s>,
    context: Context,
) -> Result<Box<TypeSyn<'s>>, Stopped>
    ensures { Reads boxed_type (types.type_after context at before (placed_core core.entry)) cursor.old result cursor.new }
{
    let constant = const_after(cursor, before, context)?;
    let reference = flag(
        cursor,
        Class::Punct(Punctuator::Ampersand),
        context.deeper(),
    )?;
    let node = cursor.number()?;
    let syn = TypeSyn {
        node,
        at,
        constant,
        core_at: core.at,
        core: Box::into_inner(core.core),
        reference,
    };
    boxed(cursor.alloc(), syn)
}

/// A type that begins with `const`.
#[cycle(reading)]
#[tactic(auto, unfolding(cx_productions::specs::Types::const_type))]
pub(crate) fn const_type<'s>(
    cursor: &mut Cursor<'_, 's>,
    depth: u32,
    context: Context,
) -> Result<Box<TypeSyn<'s>>, Stopped>
    ensures { Reads boxed_type (types.const_type (levels depth) context) cursor.old result cursor.new }
{
    let first = cursor.take(context, Class::Word(Word::Const))?;
    let core = core(cursor, depth, context.deeper())?;
    type_after(cursor, first.token.at, true, core, context)
}

/// A type that begins with its core.
#[cycle(reading)]
#[tactic(auto, unfolding(cx_productions::specs::Types::plain_type))]
fn plain_type<'s>(
    cursor: &mut Cursor<'_, 's>,
    depth: u32,
    context: Context,
) -> Result<Box<TypeSyn<'s>>, Stopped>
    ensures { Reads boxed_type (types.plain_type (levels depth) context) cursor.old result cursor.new }
{
    let core = core(cursor, depth, context.deeper())?;
    let at = core.at;
    type_after(cursor, at, false, core, context)
}

/// A type.
#[cycle(reading)]
#[tactic(auto, unfolding(cx_productions::specs::Types::type_id))]
pub fn type_id<'s>(
    cursor: &mut Cursor<'_, 's>,
    depth: u32,
    context: Context,
) -> Result<Box<TypeSyn<'s>>, Stopped>
    ensures { Reads boxed_type (types.type_id (levels depth) context) cursor.old result cursor.new }
{
    if cursor.begins(Class::Word(Word::Const)) {
        const_type(cursor, depth, context)
    } else {
        plain_type(cursor, depth, context)
    }
}

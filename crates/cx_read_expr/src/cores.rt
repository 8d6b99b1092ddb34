//! Types without `const` and `&` ([dcl.type.simple]).

ghost use Rattle.std.specs.Prelude.{◌≡◌, ◌≢◌, Err, Ok, IfOk, IfErr};
ghost use Rattle.cx_syntax.specs.declared.stopped.Stopped.TheVariants.{NoMemory};
ghost use Rattle.cx_cursor.specs.Reads.{Reads};
ghost use Rattle.cx_cursor.specs.Pieces.{piece_tree};
ghost use Rattle.cx_trees.specs.Views.{core_tree};
ghost use Rattle.cx_productions.specs.Types as types;
ghost use Rattle.cx_productions.specs.Levels.{levels};
ghost use Rattle.cx_read_expr.specs.Parts.{placed_core, boxed_type};

use crate::arguments::argument_list;
use crate::below::expr_below;
use crate::names::member_names;
use crate::precedence::EXPRESSION_LEVEL;
use crate::scalars::scalar_core;
use cx_base::Place;
use cx_cursor::{Class, Cursor, Piece, boxed};
use cx_names::NameKind;
use cx_syntax::{Context, Stopped};
use cx_tokens::{Punctuator, Word};
use cx_trees::{Core, TypeSyn};
use std::alloc::Global;

/// A type without `const` and `&`, and the place of its first token.
#[derive(Drop)]
pub struct PlacedCore<'s> {
    pub at: Place,
    pub core: Box<Core<'s>>,
}

/// A core at a place. Refuses for want of memory alone.
pub fn placed<'s>(alloc: Global, at: Place, core: Core<'s>) -> Result<PlacedCore<'s>, Stopped>
    ensures core { IfOk result (λ k. placed_core k ≡ record { at = at; tree = core_tree core.entry }) }
    ensures only_memory { IfErr result (λ e. e ≡ NoMemory) }
{
    let core = boxed(alloc, core)?;
    Ok(PlacedCore { at, core })
}

/// A core as a type without `const` and `&`.
#[tactic(auto, unfolding(cx_productions::specs::Types::as_type))]
pub(crate) fn as_type<'s>(
    cursor: &mut Cursor<'_, 's>,
    core: PlacedCore<'s>,
) -> Result<Box<TypeSyn<'s>>, Stopped>
    ensures { Reads boxed_type (types.as_type (placed_core core.entry)) cursor.old result cursor.new }
{
    let node = cursor.number()?;
    let syn = TypeSyn {
        node,
        at: core.at,
        constant: false,
        core_at: core.at,
        core: Box::into_inner(core.core),
        reference: false,
    };
    boxed(cursor.alloc(), syn)
}

/// A class template with arguments ([temp.names]).
#[cycle(reading)]
#[tactic(auto, unfolding(cx_productions::specs::Types::class_core))]
pub(crate) fn class_core<'s>(
    cursor: &mut Cursor<'_, 's>,
    depth: u32,
    context: Context,
) -> Result<PlacedCore<'s>, Stopped>
    ensures { Reads placed_core (types.class_core (levels depth) context) cursor.old result cursor.new }
{
    let name = cursor.take(context, Class::NameOf(NameKind::ClassTemplate))?;
    let arguments = argument_list(cursor, depth, context)?;
    placed(
        cursor.alloc(),
        name.token.at,
        Core::Class(name.token.text, arguments),
    )
}

/// The name of a type.
#[tactic(auto, unfolding(cx_productions::specs::Types::type_name_core))]
pub(crate) fn type_name_core<'s>(
    cursor: &mut Cursor<'_, 's>,
    context: Context,
) -> Result<PlacedCore<'s>, Stopped>
    ensures { Reads placed_core (types.type_name_core context) cursor.old result cursor.new }
{
    let name = cursor.take(context, Class::NameOf(NameKind::TypeName))?;
    placed(
        cursor.alloc(),
        name.token.at,
        Core::TypeName(name.token.text),
    )
}

/// The name of a type, or a class template with arguments: what may stand before `::`.
#[cycle(reading)]
#[tactic(auto, unfolding(cx_productions::specs::Types::head_core))]
pub fn head_core<'s>(
    cursor: &mut Cursor<'_, 's>,
    depth: u32,
    context: Context,
) -> Result<PlacedCore<'s>, Stopped>
    ensures { Reads placed_core (types.head_core (levels depth) context) cursor.old result cursor.new }
{
    if cursor.begins(Class::NameOf(NameKind::ClassTemplate)) {
        class_core(cursor, depth, context)
    } else {
        type_name_core(cursor, context)
    }
}

/// `typename`, a head and names ([temp.res]).
#[cycle(reading)]
#[tactic(auto, unfolding(cx_productions::specs::Types::member_core))]
fn member_core<'s>(
    cursor: &mut Cursor<'_, 's>,
    depth: u32,
    context: Context,
) -> Result<PlacedCore<'s>, Stopped>
    ensures { Reads placed_core (types.member_core (levels depth) context) cursor.old result cursor.new }
{
    let first = cursor.take(context, Class::Word(Word::Typename))?;
    let core = head_core(cursor, depth, context)?;
    let head = as_type(cursor, core)?;
    let names = member_names(cursor, context)?;
    placed(
        cursor.alloc(),
        first.token.at,
        Core::MemberType(head, names),
    )
}

/// `decltype` of an expression ([dcl.type.decltype]).
#[cycle(reading)]
#[tactic(auto, unfolding(cx_productions::specs::Types::decltype_core))]
fn decltype_core<'s>(
    cursor: &mut Cursor<'_, 's>,
    depth: u32,
    context: Context,
) -> Result<PlacedCore<'s>, Stopped>
    ensures { Reads placed_core (types.decltype_core (levels depth) context) cursor.old result cursor.new }
{
    let first = cursor.take(context, Class::Word(Word::Decltype))?;
    cursor.take(context.deeper(), Class::Punct(Punctuator::LeftParenthesis))?;
    let operand = expr_below(cursor, depth, EXPRESSION_LEVEL, context.inside())?;
    cursor.take(context.deeper(), Class::Punct(Punctuator::RightParenthesis))?;
    placed(cursor.alloc(), first.token.at, Core::Decltype(operand))
}

/// `void` at a piece.
pub(crate) fn void_at<'s>(alloc: Global, piece: Piece<'s>) -> Result<PlacedCore<'s>, Stopped>
    ensures core { IfOk result (λ k. placed_core k ≡ types.void_at (piece_tree piece.entry)) }
    ensures only_memory { IfErr result (λ e. e ≡ NoMemory) }
{
    placed(alloc, piece.token.at, Core::Void)
}

/// `void`.
#[tactic(auto, unfolding(cx_productions::specs::Types::void_core))]
fn void_core<'s>(cursor: &mut Cursor<'_, 's>, context: Context) -> Result<PlacedCore<'s>, Stopped>
    ensures { Reads placed_core (types.void_core context) cursor.old result cursor.new }
{
    let word = cursor.take(context, Class::Word(Word::Void))?;
    void_at(cursor.alloc(), word)
}

/// A core ([dcl.type.simple]).
#[cycle(reading)]
#[tactic(auto, unfolding(cx_productions::specs::Types::core))]
pub fn core<'s>(
    cursor: &mut Cursor<'_, 's>,
    depth: u32,
    context: Context,
) -> Result<PlacedCore<'s>, Stopped>
    ensures { Reads placed_core (types.core (levels depth) context) cursor.old result cursor.new }
{
    if cursor.begins(Class::Name) {
        head_core(cursor, depth, context)
    } else if cursor.begins(Class::Word(Word::Typename)) {
        member_core(cursor, depth, context)
    } else if cursor.begins(Class::Word(Word::Decltype)) {
        decltype_core(cursor, depth, context)
    } else if cursor.begins(Class::Word(Word::Void)) {
        void_core(cursor, context)
    } else {
        scalar_core(cursor, context)
    }
}

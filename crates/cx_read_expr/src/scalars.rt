//! Scalars ([dcl.type.simple]).

ghost use Rattle.std.specs.Prelude.{◌≡◌, IfOk, IfErr};
ghost use Rattle.cx_syntax.specs.declared.stopped.Stopped.TheVariants.{NoMemory};
ghost use Rattle.cx_syntax.specs.Combinators as combinators;
ghost use Rattle.cx_cursor.specs.Classes.{meaning};
ghost use Rattle.cx_cursor.specs.Reads.{Reads};
ghost use Rattle.cx_cursor.specs.Pieces.{piece_tree};
ghost use Rattle.cx_productions.specs.Scalars as scalars;
ghost use Rattle.cx_read_expr.specs.Parts.{placed_core};

use crate::cores::{PlacedCore, placed};
use cx_base::Scalar;
use cx_cursor::{Class, Cursor, Piece};
use cx_syntax::{Context, Stopped};
use cx_tokens::{TokenKind, Word};
use cx_trees::Core;
use std::alloc::Global;

/// Whether a piece of a class stands there; it is passed over.
pub fn flag(cursor: &mut Cursor<'_, '_>, class: Class, context: Context) -> Result<bool, Stopped>
    ensures { Reads (λ b. b) (combinators.flag context (meaning class)) cursor.old result cursor.new }
{
    if !cursor.begins(class) {
        return Ok(false);
    }
    cursor.take(context, class)?;
    Ok(true)
}

/// `int`, or nothing.
#[tactic(auto, unfolding(cx_productions::specs::Scalars::maybe_int))]
fn maybe_int(
    cursor: &mut Cursor<'_, '_>,
    scalar: Scalar,
    context: Context,
) -> Result<Scalar, Stopped>
    ensures { Reads (λ s. s) (scalars.maybe_int context scalar) cursor.old result cursor.new }
{
    flag(cursor, Class::Word(Word::Int), context)?;
    Ok(scalar)
}

/// `long long`, and `int` or nothing, after a sign.
#[tactic(auto, unfolding(cx_productions::specs::Scalars::long_long))]
fn long_long(
    cursor: &mut Cursor<'_, '_>,
    scalar: Scalar,
    context: Context,
) -> Result<Scalar, Stopped>
    ensures { Reads (λ s. s) (scalars.long_long context scalar) cursor.old result cursor.new }
{
    cursor.take(context, Class::Word(Word::Long))?;
    cursor.take(context, Class::Word(Word::Long))?;
    maybe_int(cursor, scalar, context)
}

/// What comes after `signed` or `unsigned`: what it is with no `long`, and with two.
#[tactic(auto, unfolding(cx_productions::specs::Scalars::after_sign))]
fn after_sign(
    cursor: &mut Cursor<'_, '_>,
    short: Scalar,
    long: Scalar,
    context: Context,
) -> Result<Scalar, Stopped>
    ensures { Reads (λ s. s) (scalars.after_sign context short long) cursor.old result cursor.new }
{
    if cursor.begins(Class::Word(Word::Long)) {
        long_long(cursor, long, context)
    } else {
        maybe_int(cursor, short, context)
    }
}

/// The scalar that one word is.
#[tactic(auto, unfolding(cx_tokens::specs::Spelled::same_word))]
pub fn scalar_of_word(piece: Piece<'_>) -> Scalar
    ensures { result ≡ scalars.scalar_of_word (piece_tree piece.entry) }
{
    match piece.token.kind {
        TokenKind::Word(Word::Bool) => Scalar::Bool,
        TokenKind::Word(Word::Unsigned) => Scalar::Unsigned,
        _ => Scalar::Int,
    }
}

/// A scalar at a piece.
pub fn scalar_at<'s>(
    alloc: Global,
    piece: Piece<'s>,
    scalar: Scalar,
) -> Result<PlacedCore<'s>, Stopped>
    ensures core { IfOk result (λ k. placed_core k ≡ scalars.scalar_at (piece_tree piece.entry) scalar) }
    ensures only_memory { IfErr result (λ e. e ≡ NoMemory) }
{
    placed(alloc, piece.token.at, Core::Scalar(scalar))
}

/// What comes after the first word of a scalar.
#[tactic(auto, unfolding(cx_productions::specs::Scalars::scalar_after, cx_tokens::specs::Spelled::same_word))]
pub fn scalar_after(
    cursor: &mut Cursor<'_, '_>,
    piece: Piece<'_>,
    context: Context,
) -> Result<Scalar, Stopped>
    ensures { Reads (λ s. s) (scalars.scalar_after context (piece_tree piece.entry)) cursor.old result cursor.new }
{
    match piece.token.kind {
        TokenKind::Word(Word::Signed) => {
            after_sign(cursor, Scalar::Int, Scalar::LongLong, context)
        }
        TokenKind::Word(Word::Unsigned) => {
            after_sign(cursor, Scalar::Unsigned, Scalar::ULongLong, context)
        }
        _ => Ok(scalar_of_word(piece)),
    }
}

/// A scalar that begins with one of its single words.
#[tactic(auto, unfolding(cx_productions::specs::Scalars::word_core))]
fn word_core<'s>(cursor: &mut Cursor<'_, 's>, context: Context) -> Result<PlacedCore<'s>, Stopped>
    ensures { Reads placed_core (scalars.word_core context) cursor.old result cursor.new }
{
    let word = cursor.take(context, Class::ScalarWord)?;
    let scalar = scalar_after(cursor, word, context)?;
    scalar_at(cursor.alloc(), word, scalar)
}

/// `unsigned` or nothing, and `int` or nothing, after `long long`.
#[tactic(auto, unfolding(cx_productions::specs::Scalars::after_long_long))]
fn after_long_long(cursor: &mut Cursor<'_, '_>, context: Context) -> Result<Scalar, Stopped>
    ensures { Reads (λ s. s) (scalars.after_long_long context) cursor.old result cursor.new }
{
    if !cursor.begins(Class::Word(Word::Unsigned)) {
        return maybe_int(cursor, Scalar::LongLong, context);
    }
    cursor.take(context, Class::Word(Word::Unsigned))?;
    maybe_int(cursor, Scalar::ULongLong, context)
}

/// A scalar that begins with `long`.
#[tactic(auto, unfolding(cx_productions::specs::Scalars::long_core))]
pub fn long_core<'s>(
    cursor: &mut Cursor<'_, 's>,
    context: Context,
) -> Result<PlacedCore<'s>, Stopped>
    ensures { Reads placed_core (scalars.long_core context) cursor.old result cursor.new }
{
    let first = cursor.take(context, Class::Word(Word::Long))?;
    cursor.take(context, Class::Word(Word::Long))?;
    let scalar = after_long_long(cursor, context)?;
    scalar_at(cursor.alloc(), first, scalar)
}

/// A scalar.
#[tactic(auto, unfolding(cx_productions::specs::Scalars::scalar_core))]
pub fn scalar_core<'s>(
    cursor: &mut Cursor<'_, 's>,
    context: Context,
) -> Result<PlacedCore<'s>, Stopped>
    ensures { Reads placed_core (scalars.scalar_core context) cursor.old result cursor.new }
{
    if cursor.begins(Class::ScalarWord) {
        word_core(cursor, context)
    } else {
        long_core(cursor, context)
    }
}

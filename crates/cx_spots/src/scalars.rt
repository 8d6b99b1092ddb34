//! Scalars ([dcl.type.simple]).

ghost use Rattle.std.specs.Prelude.{◌≡◌, IfOk};
ghost use Rattle.cx_grammar.specs.Types.{maybe_int, long_long, behind_long_long, behind_sign, scalar_behind, word_core, long_core, scalar_core};
ghost use Rattle.cx_spots.specs.Spots.{Reads, Lightens, context_of, piece_tree};
ghost use Rattle.cx_spots.specs.Views.{placed_core};

use crate::class::Class;
use crate::context::Context;
use crate::piece::Piece;
use crate::spot::{Cored, Read, Spot};
use cx_base::Scalar;
use cx_tree::Core;

/// The word `int` or nothing.
#[tactic(auto, unfolding(cx_grammar::specs::Types::maybe_int))]
fn maybe_int<'t, 's>(
    context: Context<'_, 's>,
    scalar: Scalar,
    spot: Spot<'t, 's>,
) -> Read<'t, 's, Scalar>
    ensures exact { Reads (λ s. s) (maybe_int (context_of context.entry) scalar) spot.entry result }
    ensures next { IfOk result (λ x. x.1.next ≡ spot.entry.next) }
    ensures lightens { Lightens 0 spot.entry result }
{
    if !spot.begins(context, Class::Word("int")) {
        return Ok((scalar, spot));
    }
    let (_, spot) = spot.take(context, context.load, Class::Word("int"))?;
    Ok((scalar, spot))
}

/// `long long`, then `int` or nothing.
#[tactic(auto, unfolding(cx_grammar::specs::Types::long_long))]
fn long_long<'t, 's>(
    context: Context<'_, 's>,
    scalar: Scalar,
    spot: Spot<'t, 's>,
) -> Read<'t, 's, Scalar>
    ensures exact { Reads (λ s. s) (long_long (context_of context.entry) scalar) spot.entry result }
    ensures next { IfOk result (λ x. x.1.next ≡ spot.entry.next) }
    ensures lightens { Lightens 0 spot.entry result }
{
    let (_, spot) = spot.take(context, context.load, Class::Word("long"))?;
    let (_, spot) = spot.take(context, context.load, Class::Word("long"))?;
    maybe_int(context, scalar, spot)
}

/// What stands behind `long long`.
#[tactic(auto, unfolding(cx_grammar::specs::Types::behind_long_long))]
fn behind_long_long<'t, 's>(context: Context<'_, 's>, spot: Spot<'t, 's>) -> Read<'t, 's, Scalar>
    ensures exact { Reads (λ s. s) (behind_long_long (context_of context.entry)) spot.entry result }
    ensures next { IfOk result (λ x. x.1.next ≡ spot.entry.next) }
    ensures lightens { Lightens 0 spot.entry result }
{
    if !spot.begins(context, Class::Word("unsigned")) {
        return maybe_int(context, Scalar::LongLong, spot);
    }
    let (_, spot) = spot.take(context, context.load, Class::Word("unsigned"))?;
    maybe_int(context, Scalar::ULongLong, spot)
}

/// What stands behind `signed` or `unsigned`.
#[tactic(auto, unfolding(cx_grammar::specs::Types::behind_sign))]
fn behind_sign<'t, 's>(
    context: Context<'_, 's>,
    short: Scalar,
    long: Scalar,
    spot: Spot<'t, 's>,
) -> Read<'t, 's, Scalar>
    ensures exact { Reads (λ s. s) (behind_sign (context_of context.entry) short long) spot.entry result }
    ensures next { IfOk result (λ x. x.1.next ≡ spot.entry.next) }
    ensures lightens { Lightens 0 spot.entry result }
{
    if spot.begins(context, Class::Word("long")) {
        long_long(context, long, spot)
    } else {
        maybe_int(context, short, spot)
    }
}

/// What stands behind the first word of a scalar.
#[tactic(auto, unfolding(cx_grammar::specs::Types::scalar_behind))]
pub fn scalar_behind<'t, 's>(
    context: Context<'_, 's>,
    first: Piece<'s>,
    spot: Spot<'t, 's>,
) -> Read<'t, 's, Scalar>
    ensures exact { Reads (λ s. s) (scalar_behind (context_of context.entry) (piece_tree first.entry)) spot.entry result }
    ensures next { IfOk result (λ x. x.1.next ≡ spot.entry.next) }
    ensures lightens { Lightens 0 spot.entry result }
{
    if first.is_word("signed") {
        behind_sign(context, Scalar::Int, Scalar::LongLong, spot)
    } else if first.is_word("unsigned") {
        behind_sign(context, Scalar::Unsigned, Scalar::ULongLong, spot)
    } else {
        Ok((first.scalar(), spot))
    }
}

/// A scalar that does not begin with `long`.
#[tactic(auto, unfolding(cx_grammar::specs::Types::word_core))]
fn word_core<'t, 's>(context: Context<'_, 's>, spot: Spot<'t, 's>) -> Read<'t, 's, Cored<'s>>
    ensures exact { Reads placed_core (word_core (context_of context.entry)) spot.entry result }
    ensures next { IfOk result (λ x. x.1.next ≡ spot.entry.next) }
    ensures lightens { Lightens 8 spot.entry result }
{
    let (first, spot) = spot.take(context, context.load, Class::OneWord)?;
    let (scalar, spot) = scalar_behind(context, first, spot)?;
    let core = Core::Scalar(scalar);
    Ok((
        Cored {
            at: first.token.at,
            core,
        },
        spot,
    ))
}

/// A scalar that begins with `long`.
#[tactic(auto, unfolding(cx_grammar::specs::Types::long_core))]
fn long_core<'t, 's>(context: Context<'_, 's>, spot: Spot<'t, 's>) -> Read<'t, 's, Cored<'s>>
    ensures exact { Reads placed_core (long_core (context_of context.entry)) spot.entry result }
    ensures next { IfOk result (λ x. x.1.next ≡ spot.entry.next) }
    ensures lightens { Lightens 8 spot.entry result }
{
    let (first, spot) = spot.take(context, context.load, Class::Word("long"))?;
    let (_, spot) = spot.take(context, context.load, Class::Word("long"))?;
    let (scalar, spot) = behind_long_long(context, spot)?;
    let core = Core::Scalar(scalar);
    Ok((
        Cored {
            at: first.token.at,
            core,
        },
        spot,
    ))
}

/// A scalar.
#[tactic(auto, unfolding(cx_grammar::specs::Types::scalar_core))]
pub fn scalar_core<'t, 's>(context: Context<'_, 's>, spot: Spot<'t, 's>) -> Read<'t, 's, Cored<'s>>
    ensures exact { Reads placed_core (scalar_core (context_of context.entry)) spot.entry result }
    ensures next { IfOk result (λ x. x.1.next ≡ spot.entry.next) }
    ensures lightens { Lightens 8 spot.entry result }
{
    if spot.begins(context, Class::OneWord) {
        word_core(context, spot)
    } else {
        long_core(context, spot)
    }
}

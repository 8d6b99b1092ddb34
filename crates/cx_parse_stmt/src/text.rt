//! Strings ([lex.string]).

ghost use Rattle.std.specs.Prelude.{◌≡◌, IfOk};
ghost use Rattle.cx_grammar.specs.Production.{Gives, read_token, begins};
ghost use Rattle.cx_grammar.specs.Statements.{string_token};
ghost use Rattle.cx_spots.specs.Spots.{Lightens, left_at, piece_tree};

use cx_base::{Limit, Stop};
use cx_lexer::TokenKind;
use cx_spots::{Class, Context, Piece, Read, Spot};

/// Whether a piece is a string.
#[tactic(auto, unfolding(cx_grammar::specs::Statements::string_token))]
fn is_string(piece: Piece<'_>) -> bool
    ensures { result ≡ string_token (piece_tree piece.entry) }
{
    matches!(piece.token.kind, TokenKind::Str)
}

/// Whether the next piece is a string.
fn begins_string(spot: Spot<'_, '_>) -> bool
    ensures { result ≡ begins string_token (left_at spot.entry) }
{
    is_string(spot.piece())
}

/// The next piece, which is a string, and the spot behind it. It has a load.
#[tactic(auto, using(crate::proofs::Strings::string_lemmas))]
pub(crate) fn string<'t, 's>(
    context: Context<'_, 's>,
    load: u32,
    spot: Spot<'t, 's>,
) -> Read<'t, 's, Piece<'s>>
    ensures exact { Gives (λ x. (piece_tree x.0, left_at x.1)) result (read_token load string_token 256 (left_at spot.entry)) }
    ensures next { IfOk result (λ x. x.1.next ≡ spot.entry.next) }
    ensures lightens { Lightens 8 spot.entry result }
{
    if !begins_string(spot) {
        return spot.take(context, load, Class::Nothing);
    }
    let piece = spot.piece();
    if load > 256 {
        return Err(Stop::Limit(Limit::Depth, piece.token.at));
    }
    Ok((piece, spot.behind()))
}

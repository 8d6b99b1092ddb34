//! What is left of tokens, the first half of the first one being read or not.

ghost use Rattle.std.specs.Prelude.{◌≡◌, true, false, map, drop};
ghost use Rattle.std.specs.Bool.{OnTrue, OnFalse};
ghost use Rattle.std.specs.Option.{option_map};
ghost use Rattle.cx_tokens.specs.Tokens.{token_tree};
ghost use Rattle.cx_cursor.specs.Pieces.{piece_tree, pieces_left, head_piece, tail_pieces};

use crate::piece::{Half, Piece};
use cx_tokens::{Punctuator, Token, TokenKind};

/// The first piece of tokens, the first half of the first one being read or not.
#[tactic(auto, unfolding(crate::specs::Pieces::pieces_left, cx_tokens::specs::Pieces::halves))]
pub(crate) fn first_piece<'s>(half: bool, tokens: &[Token<'s>]) -> Option<Piece<'s>>
    ensures { option_map piece_tree result ≡ head_piece (pieces_left half (map token_tree tokens.now)) }
{
    let token = *tokens.first()?;
    let half = match token.kind {
        TokenKind::Punct(Punctuator::GreaterGreater) if !half => Half::First,
        _ if half => Half::Second,
        _ => Half::All,
    };
    Some(Piece { token, half })
}

/// Whether the first piece is only the first half of the first token.
#[tactic(auto, unfolding(crate::specs::Pieces::pieces_left, cx_tokens::specs::Pieces::halves))]
pub(crate) fn is_first_half(half: bool, tokens: &[Token<'_>]) -> bool
    ensures left { OnTrue result (pieces_left true (map token_tree tokens.now) ≡ tail_pieces (pieces_left half (map token_tree tokens.now))) }
    ensures past { OnFalse result (pieces_left false (map token_tree (drop 1 tokens.now)) ≡ tail_pieces (pieces_left half (map token_tree tokens.now))) }
{
    match tokens {
        [] => false,
        [first, ..] => {
            !half && matches!(first.kind, TokenKind::Punct(Punctuator::GreaterGreater))
        }
    }
}

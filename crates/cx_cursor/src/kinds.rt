//! What a token is, by its kind, and the fault of one that does not fit.

ghost use Rattle.std.specs.Prelude.{◌≡◌};
ghost use Rattle.cx_tokens.specs.Tokens.{token_tree};
ghost use Rattle.cx_tokens.specs.Pieces as pieces;
ghost use Rattle.cx_syntax.specs.States as states;

use cx_base::Kind;
use cx_syntax::Stopped;
use cx_tokens::{Punctuator, Token, TokenKind, Word};

/// Whether this is a reserved word.
#[tactic(auto, unfolding(cx_tokens::specs::Spelled::same_word))]
pub(crate) fn is_word(kind: TokenKind, word: Word) -> bool
    ensures { result ≡ pieces.is_word word kind }
{
    match kind {
        TokenKind::Word(this) => this == word,
        _ => false,
    }
}

/// Whether this is a punctuator.
#[tactic(auto, unfolding(cx_tokens::specs::Spelled::same_punctuator))]
pub(crate) fn is_punctuator(kind: TokenKind, punctuator: Punctuator) -> bool
    ensures { result ≡ pieces.is_punctuator punctuator kind }
{
    match kind {
        TokenKind::Punct(this) => this == punctuator,
        _ => false,
    }
}

/// Whether the language has no use for a token.
fn is_unsupported(kind: TokenKind) -> bool
    ensures { result ≡ pieces.is_unsupported kind }
{
    matches!(
        kind,
        TokenKind::Word(Word::Unused) | TokenKind::Punct(Punctuator::Unused)
    )
}

/// The fault of a token that does not fit.
#[tactic(auto, unfolding(cx_syntax::specs::States::misfit))]
pub(crate) fn misfit(token: Token<'_>) -> Stopped
    ensures { result ≡ states.misfit (token_tree token.entry) }
{
    let kind = if is_unsupported(token.kind) {
        Kind::Unsupported
    } else {
        Kind::Syntax
    };
    Stopped::Fault(kind, token.at)
}

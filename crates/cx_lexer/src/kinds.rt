ghost use Rattle.std.specs.Prelude.{◌≡◌};
ghost use Rattle.cx_lexer.specs.Reading.{word_kind, kind_by};

use crate::classes::{begins_name, is_digit};
use crate::token::TokenKind;
use crate::words::{is_alternative, is_reserved};

/// The kind of an identifier's text.
#[tactic(auto, unfolding(crate::specs::Reading::word_kind))]
fn word_kind(text: &[u8]) -> TokenKind
    ensures { result ≡ word_kind text.now }
{
    if is_reserved(text) {
        TokenKind::Word
    } else if is_alternative(text) {
        TokenKind::Punct
    } else {
        TokenKind::Name
    }
}

/// The kind of a token that begins with a character and has a text.
#[tactic(auto, unfolding(crate::specs::Reading::kind_by))]
pub(crate) fn kind_by(first: char, text: &str) -> TokenKind
    ensures { result ≡ kind_by first text.now }
{
    if begins_name(first) {
        word_kind(text.as_bytes())
    } else if is_digit(first) {
        TokenKind::Int
    } else if first == '"' {
        TokenKind::Str
    } else {
        TokenKind::Punct
    }
}

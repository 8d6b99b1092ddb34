ghost use Rattle.std.specs.Prelude.{◌≡◌};
ghost use Rattle.cx_lexer.specs.Characters.{is_blank, is_digit, begins_name, continues_name, begins_exponent, continues_number};

use unicode_ident::{is_xid_continue, is_xid_start};

/// Whether a character only parts tokens: space, tab, and the characters 0A to 0D.
#[tactic(auto, unfolding(crate::specs::Characters::is_blank))]
pub(crate) fn is_blank(character: char) -> bool
    ensures { result ≡ is_blank character }
{
    character == ' ' || ('\t' <= character && character <= '\r')
}

/// Whether a character is a decimal digit.
#[tactic(auto, unfolding(crate::specs::Characters::is_digit))]
pub(crate) fn is_digit(character: char) -> bool
    ensures { result ≡ is_digit character }
{
    '0' <= character && character <= '9'
}

/// Whether a character begins a name.
#[tactic(auto, unfolding(crate::specs::Characters::begins_name))]
pub(crate) fn begins_name(character: char) -> bool
    ensures { result ≡ begins_name character }
{
    character == '_' || is_xid_start(character)
}

/// Whether a character goes on with a name.
#[tactic(auto, unfolding(crate::specs::Characters::continues_name))]
pub(crate) fn continues_name(character: char) -> bool
    ensures { result ≡ continues_name character }
{
    is_xid_continue(character)
}

/// Whether a number takes a sign behind a character.
#[tactic(auto, unfolding(crate::specs::Characters::begins_exponent))]
fn begins_exponent(character: char) -> bool
    ensures { result ≡ begins_exponent character }
{
    character == 'e' || character == 'E' || character == 'p' || character == 'P'
}

/// Whether a character goes on with a number behind another.
#[tactic(auto, unfolding(crate::specs::Characters::continues_number))]
pub(crate) fn continues_number(before: char, character: char) -> bool
    ensures { result ≡ continues_number before character }
{
    continues_name(character)
        || character == '.'
        || character == '\''
        || (begins_exponent(before) && (character == '+' || character == '-'))
}

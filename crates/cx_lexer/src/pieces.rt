ghost use Rattle.std.specs.Prelude.{◌≡◌, chars, map};
ghost use Rattle.std.specs.Option.{option_map};
ghost use Rattle.cx_lexer.specs.Words.{punctuators};
ghost use Rattle.cx_lexer.specs.Reading.{behind_punctuator, behind_operator, behind_token};

use crate::characters::{behind_word, split_first, starts_with_word};
use crate::classes::{begins_name, is_digit};
use crate::scan::{behind_name, behind_number, behind_string};

/// The punctuators, none behind a shorter one.
const PUNCTUATORS: [&str; 50] = [
    "...", "->*", "<=>", "<<=", ">>=", "::", ".*", "->", "+=", "-=", "*=", "/=", "%=", "^=", "&=",
    "|=", "==", "!=", "<=", ">=", "&&", "||", "<<", ">>", "++", "--", "{", "}", "(", ")", "[", "]",
    ";", ":", ",", ".", "?", "~", "!", "+", "-", "*", "/", "%", "^", "&", "|", "=", "<", ">",
];

/// The punctuators, none behind a shorter one.
#[tactic(auto, unfolding(crate::specs::Words::punctuators, crate::specs::Words::three_characters, crate::specs::Words::two_characters, crate::specs::Words::one_character))]
fn punctuators() -> &'static [&'static str]
    ensures { map (λ word. word.now) result.now ≡ punctuators }
{
    &PUNCTUATORS
}

/// What is left behind the longest punctuator at the front of a text.
fn behind_punctuator<'s>(text: &'s str) -> Option<&'s str>
    ensures { option_map (λ rest. chars rest.now) result ≡ behind_punctuator (chars text.now) }
{
    for word in punctuators() {
        if let Some(rest) = behind_word(word, text) {
            return Some(rest);
        }
    }
    None
}

/// The same where no comment begins.
#[tactic(auto, unfolding(crate::specs::Reading::behind_operator, crate::specs::Reading::comment_mark))]
fn behind_operator<'s>(text: &'s str) -> Option<&'s str>
    ensures { option_map (λ rest. chars rest.now) result ≡ behind_operator (chars text.now) }
{
    if starts_with_word("/*", text) {
        return None;
    }
    behind_punctuator(text)
}

/// What is left behind the token at the front of a text, if it begins with one.
#[tactic(auto, using(crate::proofs::Skips::token_end, crate::proofs::Skips::token_name, crate::proofs::Skips::token_number, crate::proofs::Skips::token_string, crate::proofs::Skips::token_operator))]
pub(crate) fn behind_token<'s>(text: &'s str) -> Option<&'s str>
    ensures { option_map (λ rest. chars rest.now) result ≡ behind_token (chars text.now) }
{
    let Some((first, behind)) = split_first(text) else {
        return None;
    };
    if begins_name(first) {
        Some(behind_name(behind))
    } else if is_digit(first) {
        Some(behind_number(first, behind))
    } else if first == '"' {
        behind_string(behind)
    } else {
        behind_operator(text)
    }
}

ghost use Rattle.std.specs.Prelude.{◌≡◌, ◌==◌, ◌&&◌, not, chars, false};
ghost use Rattle.std.specs.Option.{option_map};
ghost use Rattle.cx_lexer.specs.Reading.{behind_name, behind_line, behind_number, behind_string, behind_comment};

use crate::characters::split_first;
use crate::classes::{continues_name, continues_number};

/// What is left behind the characters that go on with a name.
#[tactic(auto, using(crate::proofs::Scans::behind_name_on, crate::proofs::Scans::behind_name_off, crate::proofs::Scans::behind_name_end))]
pub(crate) fn behind_name(text: &str) -> &str
    ensures { chars result.now ≡ behind_name (chars text.now) }
{
    let mut rest = text;
    while let Some((character, behind)) = split_first(rest) {
        if !continues_name(character) {
            return rest;
        }
        rest = behind;
    }
    rest
}

/// What is left behind a line: its end, if it has one, and the lines behind it.
#[tactic(auto, using(crate::proofs::Scans::behind_line_on, crate::proofs::Scans::behind_line_off, crate::proofs::Scans::behind_line_end))]
pub(crate) fn behind_line(text: &str) -> &str
    ensures { chars result.now ≡ behind_line (chars text.now) }
{
    let mut rest = text;
    while let Some((character, behind)) = split_first(rest) {
        if character == '\n' {
            return rest;
        }
        rest = behind;
    }
    rest
}

/// What is left behind the characters that go on with a number behind its first.
#[tactic(auto, using(crate::proofs::Scans::behind_number_on, crate::proofs::Scans::behind_number_off, crate::proofs::Scans::behind_number_end))]
pub(crate) fn behind_number(first: char, text: &str) -> &str
    ensures { chars result.now ≡ behind_number first (chars text.now) }
{
    let mut before = first;
    let mut rest = text;
    while let Some((character, behind)) = split_first(rest) {
        if !continues_number(before, character) {
            return rest;
        }
        before = character;
        rest = behind;
    }
    rest
}

/// Whether a character closes a string.
fn closes_string(escaped: bool, character: char) -> bool
    ensures { result ≡ (not escaped && character == 34) }
{
    !escaped && character == '"'
}

/// Whether the character behind this one is escaped.
fn escapes(escaped: bool, character: char) -> bool
    ensures { result ≡ (not escaped && character == 92) }
{
    !escaped && character == '\\'
}

/// Whether a character closes a comment.
fn closes_comment(star: bool, character: char) -> bool
    ensures { result ≡ (star && character == 47) }
{
    star && character == '/'
}

/// What is left behind a string whose first quotation mark stands before the text, if it is closed on its line.
#[tactic(auto, using(crate::proofs::Scans::behind_string_newline, crate::proofs::Scans::behind_string_closed, crate::proofs::Scans::behind_string_on, crate::proofs::Scans::behind_string_end))]
pub(crate) fn behind_string(text: &str) -> Option<&str>
    ensures { option_map (λ rest. chars rest.now) result ≡ behind_string false (chars text.now) }
{
    let mut escaped = false;
    let mut rest = text;
    while let Some((character, behind)) = split_first(rest) {
        if character == '\n' {
            return None;
        }
        if closes_string(escaped, character) {
            return Some(behind);
        }
        escaped = escapes(escaped, character);
        rest = behind;
    }
    None
}

/// What is left behind a comment whose `/*` stands before the text, if it is closed.
#[tactic(auto, using(crate::proofs::Scans::behind_comment_closed, crate::proofs::Scans::behind_comment_on, crate::proofs::Scans::behind_comment_end))]
pub(crate) fn behind_comment(text: &str) -> Option<&str>
    ensures { option_map (λ rest. chars rest.now) result ≡ behind_comment false (chars text.now) }
{
    let mut star = false;
    let mut rest = text;
    while let Some((character, behind)) = split_first(rest) {
        if closes_comment(star, character) {
            return Some(behind);
        }
        star = character == '*';
        rest = behind;
    }
    None
}

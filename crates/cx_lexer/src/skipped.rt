ghost use Rattle.std.specs.Prelude.{◌≡◌, chars};
ghost use Rattle.std.specs.Option.{option_map};
ghost use Rattle.cx_lexer.specs.Reading.{some_begins_with_digit, behind_word, number_mark, is_directive, behind_blank, behind_marked_line, behind_line_comment, behind_block_comment, behind_directive, behind_skipped};

use crate::characters::{behind_word, split_first, starts_with_word};
use crate::classes::{is_blank, is_digit};
use crate::scan::{behind_comment, behind_line};

/// Whether a text begins with `# ` and a digit.
#[tactic(auto, using(crate::proofs::Skips::line_number_digit, crate::proofs::Skips::line_number_end, crate::proofs::Skips::line_number_none), unfolding(crate::specs::Reading::number_mark))]
fn is_line_number(text: &str) -> bool
    ensures { result ≡ some_begins_with_digit (behind_word number_mark (chars text.now)) }
{
    match behind_word("# ", text) {
        Some(rest) => match split_first(rest) {
            Some((first, _)) => is_digit(first),
            None => false,
        },
        None => false,
    }
}

/// Whether a text begins as a line that is skipped: by `# ` and a digit, by `#line `, or by `#pragma`.
#[tactic(auto, unfolding(crate::specs::Reading::is_directive, crate::specs::Reading::line_mark, crate::specs::Reading::pragma_mark))]
fn is_directive(text: &str) -> bool
    ensures { result ≡ is_directive (chars text.now) }
{
    is_line_number(text) || starts_with_word("#line ", text) || starts_with_word("#pragma", text)
}

/// What is left behind a blank.
#[tactic(auto, using(crate::proofs::Skips::blank_here, crate::proofs::Skips::blank_not, crate::proofs::Skips::blank_end))]
fn behind_blank(text: &str) -> Option<&str>
    ensures { option_map (λ rest. chars rest.now) result ≡ behind_blank (chars text.now) }
{
    let Some((first, behind)) = split_first(text) else {
        return None;
    };
    if is_blank(first) { Some(behind) } else { None }
}

/// What is left behind a line that begins with a mark.
#[tactic(auto, using(crate::proofs::Skips::marked_line, crate::proofs::Skips::marked_none))]
fn behind_marked_line<'s>(mark: &str, text: &'s str) -> Option<&'s str>
    ensures { option_map (λ rest. chars rest.now) result ≡ behind_marked_line (chars mark.now) (chars text.now) }
{
    match behind_word(mark, text) {
        Some(rest) => Some(behind_line(rest)),
        None => None,
    }
}

/// What is left behind a comment that ends with its line.
#[tactic(auto, unfolding(crate::specs::Reading::behind_line_comment, crate::specs::Reading::line_comment_mark))]
fn behind_line_comment(text: &str) -> Option<&str>
    ensures { option_map (λ rest. chars rest.now) result ≡ behind_line_comment (chars text.now) }
{
    behind_marked_line("//", text)
}

/// What is left behind a comment that ends with `*/`, if it is closed.
#[tactic(auto, using(crate::proofs::Skips::block_comment_begins, crate::proofs::Skips::block_comment_none), unfolding(crate::specs::Reading::comment_mark))]
fn behind_block_comment(text: &str) -> Option<&str>
    ensures { option_map (λ rest. chars rest.now) result ≡ behind_block_comment (chars text.now) }
{
    match behind_word("/*", text) {
        Some(behind) => behind_comment(behind),
        None => None,
    }
}

/// What is left behind a line that is skipped whole.
#[tactic(auto, unfolding(crate::specs::Reading::behind_directive, crate::specs::Reading::hash_mark))]
fn behind_directive(begins_line: bool, text: &str) -> Option<&str>
    ensures { option_map (λ rest. chars rest.now) result ≡ behind_directive begins_line (chars text.now) }
{
    if begins_line && is_directive(text) {
        behind_marked_line("#", text)
    } else {
        None
    }
}

/// What is left behind one blank, comment or skipped line, if the text begins with one.
#[tactic(auto, using(crate::proofs::Skips::skipped_blank, crate::proofs::Skips::skipped_line_comment, crate::proofs::Skips::skipped_block_comment, crate::proofs::Skips::skipped_directive))]
pub(crate) fn behind_skipped(begins_line: bool, text: &str) -> Option<&str>
    ensures { option_map (λ rest. chars rest.now) result ≡ behind_skipped begins_line (chars text.now) }
{
    if let Some(rest) = behind_blank(text) {
        return Some(rest);
    }
    if let Some(rest) = behind_line_comment(text) {
        return Some(rest);
    }
    if let Some(rest) = behind_block_comment(text) {
        return Some(rest);
    }
    behind_directive(begins_line, text)
}

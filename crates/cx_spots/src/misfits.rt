ghost use Rattle.std.specs.Prelude.{◌≡◌, map, bytes_eq};
ghost use Rattle.std.specs.List.{list_any};
ghost use Rattle.cx_lexer.specs.Tokens.{token_tree};
ghost use Rattle.cx_lexer.specs.Words.{has_word, unused_words};
ghost use Rattle.cx_grammar.specs.Words.{unused_punctuators, is_unsupported, misfit, refused};
ghost use Rattle.cx_spots.specs.Spots.{IsStop};
ghost use Rattle.cx_base.specs.declared.kind.Kind.TheVariants as fault;

use cx_base::{Fault, Kind, Place, Places, Stop};
use cx_lexer::{Token, TokenKind};
use std::alloc::Global;

/// The words that the language does not use.
#[tactic(auto, unfolding(cx_lexer::specs::Words::unused_words))]
fn unused_words() -> &'static [&'static str]
    ensures { map (λ word. word.now) result.now ≡ unused_words }
{
    &[
        "alignas",
        "alignof",
        "asm",
        "case",
        "catch",
        "char",
        "char8_t",
        "char16_t",
        "char32_t",
        "consteval",
        "constinit",
        "const_cast",
        "co_await",
        "co_return",
        "co_yield",
        "default",
        "delete",
        "do",
        "double",
        "dynamic_cast",
        "enum",
        "explicit",
        "export",
        "extern",
        "float",
        "friend",
        "goto",
        "mutable",
        "namespace",
        "new",
        "noexcept",
        "nullptr",
        "operator",
        "private",
        "protected",
        "public",
        "register",
        "reinterpret_cast",
        "short",
        "sizeof",
        "switch",
        "this",
        "thread_local",
        "throw",
        "try",
        "typedef",
        "typeid",
        "union",
        "virtual",
        "volatile",
        "wchar_t",
    ]
}

/// The punctuators that no production uses.
#[tactic(auto, unfolding(cx_grammar::specs::Words::unused_punctuators))]
fn unused_punctuators() -> &'static [&'static str]
    ensures { map (λ word. word.now) result.now ≡ unused_punctuators }
{
    &["[", "]", "...", ".*", "->*", "<=>"]
}

/// Whether a text is one of the words.
fn has_word(words: &[&str], text: &[u8]) -> bool
    ensures { result ≡ list_any (λ word. bytes_eq text.now word.now) words.now }
{
    words.iter().any(|word| text == word.as_bytes())
}

/// Whether the language does not use a word.
fn is_unused_word(text: &[u8]) -> bool
    ensures { result ≡ has_word unused_words text.now }
{
    has_word(unused_words(), text)
}

/// Whether no production uses a punctuator.
fn is_unused_punctuator(text: &[u8]) -> bool
    ensures { result ≡ has_word unused_punctuators text.now }
{
    has_word(unused_punctuators(), text)
}

/// Whether the language has no use for a token.
#[tactic(auto, using(crate::proofs::WordList::unsupported_lemmas), unfolding(cx_grammar::specs::Words::is_unsupported))]
fn is_unsupported(token: &Token<'_>) -> bool
    ensures { result ≡ is_unsupported (token_tree token.now) }
{
    match token.kind {
        TokenKind::Word => is_unused_word(token.text.as_bytes()),
        TokenKind::Punct => is_unused_punctuator(token.text.as_bytes()),
        _ => false,
    }
}

/// A fault at a place.
fn fault(alloc: Global, kind: Kind, at: Place) -> Stop
    ensures { IsStop (refused kind at) result }
{
    Stop::Fault(Fault {
        kind,
        at,
        also: Places::new(alloc),
        chain: Places::new(alloc),
    })
}

/// The fault of a token that does not fit.
#[tactic(auto, unfolding(cx_grammar::specs::Words::misfit))]
pub fn misfit(alloc: Global, token: &Token<'_>) -> Stop
    ensures { IsStop (misfit (token_tree token.now)) result }
{
    if is_unsupported(token) {
        fault(alloc, Kind::Unsupported, token.at)
    } else {
        fault(alloc, Kind::Syntax, token.at)
    }
}

/// The fault of what the parsers do not read yet.
pub fn unsupported(alloc: Global, at: Place) -> Stop
    ensures { IsStop (refused fault.Unsupported at) result }
{
    fault(alloc, Kind::Unsupported, at)
}

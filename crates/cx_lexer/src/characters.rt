ghost use Rattle.std.specs.Prelude.{◌≡◌, ◌<◌, [], ◌∷◌, length, chars, MatchOption, IfSome};
ghost use Rattle.std.specs.Option.{option_map};
ghost use Rattle.cx_lexer.specs.Reading.{behind_word, starts_with_word};

/// The first character of a text, and what is left behind it.
pub(crate) fn split_first(text: &str) -> Option<(char, &str)>
    ensures parts { MatchOption result (chars text.now ≡ []) (λ p. chars text.now ≡ p.0 ∷ chars p.1.now) }
    ensures shorter { IfSome result (λ p. length p.1.now < length text.now) }
{
    let mut characters = text.chars();
    match characters.next() {
        Some(first) => Some((first, characters.as_str())),
        None => None,
    }
}

/// What is left behind a word, if the text begins with it.
pub(crate) fn behind_word<'s>(word: &str, text: &'s str) -> Option<&'s str>
    ensures { option_map (λ rest. chars rest.now) result ≡ behind_word (chars word.now) (chars text.now) }
{
    text.strip_prefix(word)
}

/// Whether a text begins with a word.
#[tactic(auto, using(crate::proofs::CharacterLemmas::starts_when))]
pub(crate) fn starts_with_word(word: &str, text: &str) -> bool
    ensures { result ≡ starts_with_word (chars word.now) (chars text.now) }
{
    behind_word(word, text).is_some()
}

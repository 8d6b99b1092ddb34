use crate::punctuator::Punctuator;
use crate::word::Word;
use cx_base::Place;

/// What a token is.
#[derive(Clone, Copy, Debug, PartialEq, Eq)]
pub enum TokenKind {
    /// A name: no reserved word and no alternative token.
    Name,
    /// A reserved word.
    Word(Word),
    /// A literal that is a value of one of its types.
    Int,
    /// A string.
    Str,
    /// A punctuator, also one that an alternative token spells.
    Punct(Punctuator),
    /// The end of the text.
    End,
}

/// A token: a slice of the text, empty for `End`, and the place of its first byte.
#[derive(Clone, Copy, Debug)]
pub struct Token<'s> {
    pub kind: TokenKind,
    pub text: &'s str,
    pub at: Place,
}

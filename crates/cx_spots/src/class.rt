use cx_scope::NameKind;

/// A class of pieces, by which the grammar chooses.
#[derive(Clone, Copy)]
pub enum Class<'x> {
    /// A reserved word.
    Word(&'x str),
    /// A punctuator, by its first spelling.
    Punct(&'x str),
    AnyName,
    /// A name of a kind.
    Named(NameKind),
    /// A name of a type or of a class template.
    HeadName,
    Literal,
    /// A scalar of one word.
    OneWord,
    /// A word with which a core begins that is no scalar.
    CoreWord,
    /// What closes the list of template arguments that is open.
    Closing,
    /// What makes an expression of a name of a type.
    GoesOn,
    /// `++` or `--`.
    Step,
    /// A prefix operator.
    Prefix,
    /// A binary operator of a level, from the tightest one, 0, on.
    Operator(u32),
    Assignment,
    /// The second half of `>>`.
    SecondHalf,
    /// No piece.
    Nothing,
}

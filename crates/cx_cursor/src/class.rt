use cx_names::NameKind;
use cx_syntax::OpenLists;
use cx_tokens::{Punctuator, Word};

/// A class of pieces, by which a production chooses.
#[derive(Clone, Copy, Debug)]
pub enum Class {
    /// A reserved word.
    Word(Word),
    /// A punctuator that is one piece.
    Punct(Punctuator),
    /// Any name.
    Name,
    /// A name of a kind.
    NameOf(NameKind),
    Literal,
    Text,
    End,
    /// What closes the list of template arguments that is open.
    Closing(OpenLists),
    /// The second half of `>>`.
    SecondHalf,
    /// A prefix operator.
    Prefix,
    /// A postfix operator.
    Postfix,
    /// A binary operator of a level.
    Operator(u32, OpenLists),
    /// An assignment operator.
    Assignment(OpenLists),
    /// A name of a type or of a class template.
    HeadName,
    /// What makes an expression of such a name.
    AfterHead,
    /// A word that begins a core that is no scalar.
    CoreWord,
    /// The first word of a scalar that may be of one word.
    ScalarWord,
    /// What begins a template parameter of a type.
    TypeWord,
    /// A specifier other than these that stand there already.
    FreeSpecifier {
        is_inline: bool,
        is_static: bool,
        is_constexpr: bool,
    },
    /// No piece.
    Nothing,
}

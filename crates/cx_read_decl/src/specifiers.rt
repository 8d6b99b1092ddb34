//! Specifiers ([dcl.spec]).

ghost use Rattle.std.specs.Prelude.{◌≡◌};
ghost use Rattle.cx_tokens.specs.Pieces as pieces;
ghost use Rattle.cx_cursor.specs.Pieces.{piece_tree};
ghost use Rattle.cx_cursor.specs.Classes.{meaning};
ghost use Rattle.cx_cursor.specs.Reads.{Reads};
ghost use Rattle.cx_productions.specs.Declarations as declarations;
ghost use Rattle.cx_statement_trees.specs.DeclarationViews as views;

use cx_cursor::{Class, Cursor, Piece};
use cx_statement_trees::Specifiers;
use cx_syntax::{Context, Stopped};
use cx_tokens::{TokenKind, Word};

/// No specifier.
pub(crate) const NO_SPECIFIERS: Specifiers = Specifiers {
    is_inline: false,
    is_static: false,
    is_constexpr: false,
};

/// `static`, so that it does not stand there again.
pub(crate) const STATIC: Specifiers = Specifiers {
    is_inline: false,
    is_static: true,
    is_constexpr: false,
};

/// Whether this is a reserved word.
#[tactic(auto, unfolding(cx_tokens::specs::Spelled::same_word))]
fn is_word(kind: TokenKind, word: Word) -> bool
    ensures { result ≡ pieces.is_word word kind }
{
    match kind {
        TokenKind::Word(this) => this == word,
        _ => false,
    }
}

/// Specifiers with one more.
fn with_specifier(before: Specifiers, piece: Piece<'_>) -> Specifiers
    ensures { views.specifiers result ≡ declarations.with_specifier (views.specifiers before) (piece_tree piece.entry) }
{
    let kind = piece.token.kind;
    Specifiers {
        is_inline: before.is_inline || is_word(kind, Word::Inline),
        is_static: before.is_static || is_word(kind, Word::Static),
        is_constexpr: before.is_constexpr || is_word(kind, Word::Constexpr),
    }
}

/// The class of the specifiers that do not stand there yet.
fn free(before: Specifiers) -> Class
    ensures { meaning result ≡ declarations.free_specifier (views.specifiers before) }
{
    Class::FreeSpecifier {
        is_inline: before.is_inline,
        is_static: before.is_static,
        is_constexpr: before.is_constexpr,
    }
}

/// One specifier more.
#[tactic(auto, unfolding(cx_productions::specs::Declarations::one_more_specifier))]
fn one_more_specifier(
    cursor: &mut Cursor<'_, '_>,
    context: Context,
    before: Specifiers,
) -> Result<Specifiers, Stopped>
    ensures { Reads views.specifiers (declarations.one_more_specifier context (views.specifiers before)) cursor.old result cursor.new }
{
    let piece = cursor.take(context, free(before))?;
    Ok(with_specifier(before, piece))
}

/// Specifiers, each at most once, with those that stand there already.
#[tactic(auto, unfolding(cx_productions::specs::Declarations::specifiers))]
pub(crate) fn specifiers(
    cursor: &mut Cursor<'_, '_>,
    context: Context,
    first: Specifiers,
) -> Result<Specifiers, Stopped>
    ensures { Reads views.specifiers (declarations.specifiers context (views.specifiers first)) cursor.old result cursor.new }
{
    let mut all = first;
    'turns: while cursor.begins(free(all)) {
        all = one_more_specifier(cursor, context, all)?;
    }
    Ok(all)
}

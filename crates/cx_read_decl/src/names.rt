//! Names that may be left out.

ghost use Rattle.std.specs.Prelude.{◌≡◌};
ghost use Rattle.cx_trees.specs.Views.{maybe_text};
ghost use Rattle.cx_cursor.specs.Reads.{Reads};
ghost use Rattle.cx_productions.specs.Statements as statements;
ghost use Rattle.cx_productions.specs.Declarations as declarations;
ghost use Rattle.cx_read_decl.specs.Views.{maybe_piece};

use cx_base::Place;
use cx_cursor::{Class, Cursor, Piece};
use cx_names::NameKind;
use cx_syntax::{Context, Stopped};

/// `[ Name ]`
#[tactic(auto, unfolding(cx_productions::specs::Declarations::maybe_name))]
pub(crate) fn maybe_name<'s>(
    cursor: &mut Cursor<'_, 's>,
    context: Context,
) -> Result<Option<Piece<'s>>, Stopped>
    ensures { Reads maybe_piece (declarations.maybe_name context) cursor.old result cursor.new }
{
    if !cursor.begins(Class::Name) {
        return Ok(None);
    }
    let name = cursor.take(context, Class::Name)?;
    Ok(Some(name))
}

/// Declares a name, if there is one.
#[tactic(auto, unfolding(cx_productions::specs::Declarations::note_maybe))]
pub(crate) fn note_maybe<'s>(
    cursor: &mut Cursor<'_, 's>,
    kind: NameKind,
    name: Option<Piece<'s>>,
) -> Result<(), Stopped>
    ensures { Reads (λ u. u) (declarations.note_maybe kind (maybe_piece name.entry)) cursor.old result cursor.new }
{
    match name {
        None => Ok(()),
        Some(name) => cursor.note(name.token.text, kind),
    }
}

/// The place of a name, or another one where there is none.
pub(crate) fn place_of_name(other: Place, name: Option<Piece<'_>>) -> Place
    ensures { result ≡ declarations.place_of_name other (maybe_piece name.entry) }
{
    match name {
        None => other,
        Some(name) => name.token.at,
    }
}

/// The text of a name.
pub(crate) fn text_of_name<'s>(name: Option<Piece<'s>>) -> Option<&'s str>
    ensures { maybe_text result ≡ declarations.text_of_name (maybe_piece name.entry) }
{
    match name {
        None => None,
        Some(name) => Some(name.token.text),
    }
}

/// A place, or another one where there is none.
pub(crate) fn place_or(other: Place, at: Option<Place>) -> Place
    ensures { result ≡ statements.place_or other at }
{
    match at {
        None => other,
        Some(at) => at,
    }
}

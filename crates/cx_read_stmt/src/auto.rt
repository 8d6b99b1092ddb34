//! `auto` ([dcl.spec.auto]).

ghost use Rattle.std.specs.Option.{option_map};
ghost use Rattle.cx_trees.specs.Views.{constraint_tree};
ghost use Rattle.cx_productions.specs.Statements as statements;
ghost use Rattle.cx_statement_trees.specs.StatementViews.{auto_tree};
ghost use Rattle.cx_cursor.specs.Reads.{Reads};
ghost use Rattle.std.specs.Prelude.{◌≡◌};

use cx_base::Place;
use cx_cursor::{Class, Cursor, boxed};
use cx_read_expr::flag;
use cx_statement_trees::Auto;
use cx_syntax::{Context, Stopped};
use cx_tokens::{Punctuator, Word};
use cx_trees::Constraint;

/// A place, or another one where there is none.
pub(crate) fn place_or(other: Place, at: Option<Place>) -> Place
    ensures { result ≡ statements.place_or other at }
{
    match at {
        None => other,
        Some(at) => at,
    }
}

/// `"auto" [ "const" ] [ "&" ]`. What stands before it is told: its place, whether it is `const`, a constraint.
#[tactic(auto, unfolding(cx_productions::specs::Statements::auto_after))]
pub fn auto_after<'s>(
    cursor: &mut Cursor<'_, 's>,
    context: Context,
    at: Option<Place>,
    is_const: bool,
    constraint: Option<Box<Constraint<'s>>>,
) -> Result<Box<Auto<'s>>, Stopped>
    ensures { Reads (λ a. auto_tree a.value) (statements.auto_after context at is_const (option_map (λ k. constraint_tree k.value) constraint.entry)) cursor.old result cursor.new }
{
    let word = cursor.take(context, Class::Word(Word::Auto))?;
    let constant = flag(cursor, Class::Word(Word::Const), context)?;
    let reference = flag(cursor, Class::Punct(Punctuator::Ampersand), context)?;
    let node = cursor.number()?;
    boxed(
        cursor.alloc(),
        Auto {
            node,
            at: place_or(word.token.at, at),
            constant: is_const || constant,
            constraint,
            reference,
        },
    )
}

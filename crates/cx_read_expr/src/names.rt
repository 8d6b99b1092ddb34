//! Names after a type ([expr.prim.id.qual]).

ghost use Rattle.std.specs.Prelude.{[], ◌∷◌};
ghost use Rattle.cx_tokens.specs.declared.punctuator.Punctuator.TheVariants as punctuator;
ghost use Rattle.cx_syntax.specs.Classes.{punct};
ghost use Rattle.cx_syntax.specs.Productions.{repeat};
ghost use Rattle.cx_cursor.specs.Reads.{Reads};
ghost use Rattle.cx_trees.specs.Views.{texts};
ghost use Rattle.cx_productions.specs.Types as types;
ghost use Rattle.cx_read_expr.specs.Parts.{all_texts};

use cx_cursor::{Class, Cursor};
use cx_syntax::{Context, Stopped};
use cx_tokens::Punctuator;

/// `::` and a name.
#[tactic(auto, unfolding(cx_productions::specs::Types::member_name))]
fn member_name<'s>(cursor: &mut Cursor<'_, 's>, context: Context) -> Result<&'s str, Stopped>
    ensures { Reads (λ name. name.now) (types.member_name context) cursor.old result cursor.new }
{
    cursor.take(context, Class::Punct(Punctuator::ColonColon))?;
    let name = cursor.take(context, Class::Name)?;
    Ok(name.token.text)
}

/// One name more.
#[tactic(auto, unfolding(cx_productions::specs::Types::more_names))]
fn more_names<'s>(
    cursor: &mut Cursor<'_, 's>,
    so_far: Vec<&'s str>,
    context: Context,
) -> Result<Vec<&'s str>, Stopped>
    ensures { Reads all_texts (types.more_names context (texts so_far.entry.items)) cursor.old result cursor.new }
{
    let name = member_name(cursor, context)?;
    let mut names = so_far;
    names.push(name)?;
    Ok(names)
}

/// Any number of names more.
fn names_after<'s>(
    cursor: &mut Cursor<'_, 's>,
    so_far: Vec<&'s str>,
    context: Context,
) -> Result<Vec<&'s str>, Stopped>
    ensures { Reads all_texts (repeat (λ so_far. punct punctuator.ColonColon) (types.more_names context) (texts so_far.entry.items)) cursor.old result cursor.new }
{
    let mut names = so_far;
    'turns: while cursor.begins(Class::Punct(Punctuator::ColonColon)) {
        names = more_names(cursor, names, context)?;
    }
    Ok(names)
}

/// One name or more, each after `::`.
#[tactic(auto, unfolding(cx_productions::specs::Types::member_names))]
pub fn member_names<'s>(
    cursor: &mut Cursor<'_, 's>,
    context: Context,
) -> Result<Vec<&'s str>, Stopped>
    ensures { Reads all_texts (types.member_names context) cursor.old result cursor.new }
{
    let first = member_name(cursor, context)?;
    let mut names: Vec<&'s str> = Vec::new(cursor.alloc());
    names.push(first)?;
    names_after(cursor, names, context)
}

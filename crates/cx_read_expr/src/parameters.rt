//! The local parameters of a requires-expression ([expr.prim.req]).

ghost use Rattle.std.specs.Prelude.{[], ◌∷◌, map};
ghost use Rattle.cx_tokens.specs.declared.punctuator.Punctuator.TheVariants as punctuator;
ghost use Rattle.cx_syntax.specs.Classes.{punct};
ghost use Rattle.cx_syntax.specs.Combinators.{one_more, separated, separated_after};
ghost use Rattle.cx_syntax.specs.Productions.{repeat};
ghost use Rattle.cx_cursor.specs.Reads.{Reads};
ghost use Rattle.cx_trees.specs.Views.{local_tree};
ghost use Rattle.cx_productions.specs.Levels.{levels};
ghost use Rattle.cx_productions.specs.Parameters.{void_parameters};
ghost use Rattle.cx_productions.specs.Requires as requirements;
ghost use Rattle.cx_read_expr.specs.Parts.{all_locals, boxed_type};

use crate::cores::void_at;
use crate::types::{type_after, type_id};
use cx_cursor::{Class, Cursor};
use cx_names::NameKind;
use cx_syntax::{Context, Stopped};
use cx_tokens::{Punctuator, Word};
use cx_trees::{LocalParameter, TypeSyn};

/// A name or none, after the type of a parameter; it is declared at once.
#[tactic(auto, unfolding(cx_productions::specs::Requires::local_after))]
fn local_after<'s>(
    cursor: &mut Cursor<'_, 's>,
    of: Box<TypeSyn<'s>>,
    context: Context,
) -> Result<LocalParameter<'s>, Stopped>
    ensures { Reads local_tree (requirements.local_after context (boxed_type of.entry)) cursor.old result cursor.new }
{
    if !cursor.begins(Class::Name) {
        let node = cursor.number()?;
        let at = of.at();
        let name = None;
        return Ok(LocalParameter { node, at, of, name });
    }
    let name = cursor.take(context, Class::Name)?;
    cursor.note(name.token.text, NameKind::Value)?;
    let node = cursor.number()?;
    let at = name.token.at;
    let name = Some(name.token.text);
    Ok(LocalParameter { node, at, of, name })
}

/// A parameter: a type, and a name or none.
#[cycle(reading)]
#[tactic(auto, unfolding(cx_productions::specs::Requires::local))]
fn local<'s>(
    cursor: &mut Cursor<'_, 's>,
    depth: u32,
    context: Context,
) -> Result<LocalParameter<'s>, Stopped>
    ensures { Reads local_tree (requirements.local (levels depth) context) cursor.old result cursor.new }
{
    let of = type_id(cursor, depth, context)?;
    local_after(cursor, of, context)
}

/// `,` and one parameter more.
#[cycle(reading)]
fn more_local<'s>(
    cursor: &mut Cursor<'_, 's>,
    depth: u32,
    so_far: Vec<LocalParameter<'s>>,
    context: Context,
) -> Result<Vec<LocalParameter<'s>>, Stopped>
    ensures { Reads all_locals (one_more context (requirements.local (levels depth) context) (map local_tree so_far.entry.items)) cursor.old result cursor.new }
{
    cursor.take(context, Class::Punct(Punctuator::Comma))?;
    let parameter = local(cursor, depth, context)?;
    let mut parameters = so_far;
    parameters.push(parameter)?;
    Ok(parameters)
}

/// Any number of parameters more.
#[cycle(reading)]
fn locals_after<'s>(
    cursor: &mut Cursor<'_, 's>,
    depth: u32,
    so_far: Vec<LocalParameter<'s>>,
    context: Context,
) -> Result<Vec<LocalParameter<'s>>, Stopped>
    ensures { Reads all_locals (repeat (λ so_far. punct punctuator.Comma) (one_more context (requirements.local (levels depth) context)) (map local_tree so_far.entry.items)) cursor.old result cursor.new }
{
    let mut parameters = so_far;
    'turns: while cursor.begins(Class::Punct(Punctuator::Comma)) {
        parameters = more_local(cursor, depth, parameters, context)?;
    }
    Ok(parameters)
}

/// Any number of parameters more, after a first one.
#[cycle(reading)]
fn locals_from<'s>(
    cursor: &mut Cursor<'_, 's>,
    depth: u32,
    first: LocalParameter<'s>,
    context: Context,
) -> Result<Vec<LocalParameter<'s>>, Stopped>
    ensures { Reads all_locals (separated_after context (requirements.local (levels depth) context) (local_tree first.entry)) cursor.old result cursor.new }
{
    let mut parameters: Vec<LocalParameter<'s>> = Vec::new(cursor.alloc());
    parameters.push(first)?;
    locals_after(cursor, depth, parameters, context)
}

/// One parameter or more.
#[cycle(reading)]
fn locals<'s>(
    cursor: &mut Cursor<'_, 's>,
    depth: u32,
    context: Context,
) -> Result<Vec<LocalParameter<'s>>, Stopped>
    ensures { Reads all_locals (separated context (requirements.local (levels depth) context)) cursor.old result cursor.new }
{
    let first = local(cursor, depth, context)?;
    locals_from(cursor, depth, first, context)
}

/// Parameters that begin with `void`, which alone is none.
#[cycle(reading)]
fn void_locals<'s>(
    cursor: &mut Cursor<'_, 's>,
    depth: u32,
    context: Context,
) -> Result<Vec<LocalParameter<'s>>, Stopped>
    ensures { Reads all_locals (void_parameters context (requirements.local_after context) (requirements.local (levels depth) context)) cursor.old result cursor.new }
{
    let word = cursor.take(context, Class::Word(Word::Void))?;
    if cursor.begins(Class::Punct(Punctuator::RightParenthesis)) {
        return Ok(Vec::new(cursor.alloc()));
    }
    cursor.count(context.deeper(), word)?;
    let core = void_at(cursor.alloc(), word)?;
    let of = type_after(cursor, word.token.at, false, core, context)?;
    let first = local_after(cursor, of, context)?;
    locals_from(cursor, depth, first, context)
}

/// None or more parameters, up to `)`.
#[cycle(reading)]
#[tactic(auto, unfolding(cx_productions::specs::Requires::local_list))]
fn local_list<'s>(
    cursor: &mut Cursor<'_, 's>,
    depth: u32,
    context: Context,
) -> Result<Vec<LocalParameter<'s>>, Stopped>
    ensures { Reads all_locals (requirements.local_list (levels depth) context) cursor.old result cursor.new }
{
    if cursor.begins(Class::Punct(Punctuator::RightParenthesis)) {
        Ok(Vec::new(cursor.alloc()))
    } else if cursor.begins(Class::Word(Word::Void)) {
        void_locals(cursor, depth, context)
    } else {
        locals(cursor, depth, context)
    }
}

/// Parameters in parentheses, or nothing.
#[cycle(reading)]
#[tactic(auto, unfolding(cx_productions::specs::Requires::maybe_locals))]
pub(crate) fn maybe_locals<'s>(
    cursor: &mut Cursor<'_, 's>,
    depth: u32,
    context: Context,
) -> Result<Vec<LocalParameter<'s>>, Stopped>
    ensures { Reads all_locals (requirements.maybe_locals (levels depth) context) cursor.old result cursor.new }
{
    if !cursor.begins(Class::Punct(Punctuator::LeftParenthesis)) {
        return Ok(Vec::new(cursor.alloc()));
    }
    cursor.take(context.deeper(), Class::Punct(Punctuator::LeftParenthesis))?;
    let parameters = local_list(cursor, depth, context.inside())?;
    cursor.take(context.deeper(), Class::Punct(Punctuator::RightParenthesis))?;
    Ok(parameters)
}

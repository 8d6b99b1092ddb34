//! Variables ([dcl.dcl]): what stands after their type.

ghost use Rattle.cx_trees.specs.Views.{type_tree};
ghost use Rattle.cx_productions.specs.Levels.{levels};
ghost use Rattle.cx_productions.specs.Statements as statements;
ghost use Rattle.cx_statement_trees.specs.StatementViews.{variable_tree, auto_tree};
ghost use Rattle.cx_cursor.specs.Reads.{Reads};

use crate::initialiser::{init, value_init};
use cx_cursor::{Class, Cursor, boxed};
use cx_names::NameKind;
use cx_statement_trees::{Auto, Variable, WrittenType};
use cx_syntax::{Context, Stopped};
use cx_tokens::Punctuator;
use cx_trees::TypeSyn;

/// `Name init ";"`, after a type. The name is declared after its initialiser.
#[tactic(auto, unfolding(cx_productions::specs::Statements::variable_after))]
pub(crate) fn variable_after<'s>(
    cursor: &mut Cursor<'_, 's>,
    depth: u32,
    context: Context,
    is_constexpr: bool,
    of: Box<TypeSyn<'s>>,
) -> Result<Box<Variable<'s>>, Stopped>
    ensures { Reads (λ v. variable_tree v.value) (statements.variable_after (levels depth) context is_constexpr (type_tree of.entry.value)) cursor.old result cursor.new }
{
    let name = cursor.take(context, Class::Name)?;
    let init = init(cursor, depth, context)?;
    cursor.take(context, Class::Punct(Punctuator::Semicolon))?;
    let node = cursor.number()?;
    cursor.note(name.token.text, NameKind::Value)?;
    boxed(
        cursor.alloc(),
        Variable {
            node,
            at: name.token.at,
            is_constexpr,
            written: WrittenType::Type(of),
            name: name.token.text,
            init,
        },
    )
}

/// `Name "=" expr ";"`, after `auto`.
#[tactic(auto, unfolding(cx_productions::specs::Statements::auto_variable_after))]
pub(crate) fn auto_variable_after<'s>(
    cursor: &mut Cursor<'_, 's>,
    depth: u32,
    context: Context,
    is_constexpr: bool,
    of: Box<Auto<'s>>,
) -> Result<Box<Variable<'s>>, Stopped>
    ensures { Reads (λ v. variable_tree v.value) (statements.auto_variable_after (levels depth) context is_constexpr (auto_tree of.entry.value)) cursor.old result cursor.new }
{
    let name = cursor.take(context, Class::Name)?;
    let init = value_init(cursor, depth, context)?;
    cursor.take(context, Class::Punct(Punctuator::Semicolon))?;
    let node = cursor.number()?;
    cursor.note(name.token.text, NameKind::Value)?;
    boxed(
        cursor.alloc(),
        Variable {
            node,
            at: name.token.at,
            is_constexpr,
            written: WrittenType::Auto(of),
            name: name.token.text,
            init,
        },
    )
}

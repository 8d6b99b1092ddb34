//! Constants and aliases ([dcl.dcl], [dcl.typedef]), and what begins like a variable or a function of the unit.

ghost use Rattle.cx_cursor.specs.Pieces.{piece_tree};
ghost use Rattle.cx_cursor.specs.Reads.{Reads};
ghost use Rattle.cx_productions.specs.Levels.{levels};
ghost use Rattle.cx_productions.specs.Units.{unit_levels};
ghost use Rattle.cx_productions.specs.Declarations as declarations;
ghost use Rattle.cx_read_expr.specs.Parts.{boxed_type};
ghost use Rattle.cx_statement_trees.specs.DeclarationViews as views;
ghost use Rattle.cx_read_decl.specs.Views.{boxed_constant, boxed_alias};

use crate::functions::{Surroundings, function_after};
use crate::specifiers::{NO_SPECIFIERS, specifiers};
use cx_cursor::{Class, Cursor, Piece, boxed};
use cx_names::NameKind;
use cx_read_expr::type_id;
use cx_read_stmt::init;
use cx_statement_trees::{Alias, Constant, Decl, Specifiers};
use cx_syntax::{Context, Stopped};
use cx_tokens::{Punctuator, Word};
use cx_trees::TypeSyn;

/// `init ";"`, after the name of a constant, which is declared before its initialiser.
#[tactic(auto, unfolding(cx_productions::specs::Declarations::constant_after))]
pub(crate) fn constant_after<'s>(
    cursor: &mut Cursor<'_, 's>,
    depth: u32,
    context: Context,
    specifiers: Specifiers,
    of: Box<TypeSyn<'s>>,
    name: Piece<'s>,
) -> Result<Box<Constant<'s>>, Stopped>
    ensures { Reads boxed_constant (declarations.constant_after (levels depth) context (views.specifiers specifiers) (boxed_type of.entry) (piece_tree name.entry)) cursor.old result cursor.new }
{
    cursor.note(name.token.text, NameKind::Value)?;
    let init = init(cursor, depth, context)?;
    cursor.take(context, Class::Punct(Punctuator::Semicolon))?;
    let node = cursor.number()?;
    boxed(
        cursor.alloc(),
        Constant {
            node,
            at: name.token.at,
            specifiers,
            of,
            name: name.token.text,
            init,
        },
    )
}

/// `"using" Name "=" type ";"`. The name is declared after its type.
#[tactic(auto, unfolding(cx_productions::specs::Declarations::alias))]
pub(crate) fn alias<'s>(
    cursor: &mut Cursor<'_, 's>,
    depth: u32,
    context: Context,
) -> Result<Box<Alias<'s>>, Stopped>
    ensures { Reads boxed_alias (declarations.alias (levels depth) context) cursor.old result cursor.new }
{
    cursor.take(context, Class::Word(Word::Using))?;
    let name = cursor.take(context, Class::Name)?;
    cursor.take(context, Class::Punct(Punctuator::Equal))?;
    let of = type_id(cursor, depth, context)?;
    cursor.take(context, Class::Punct(Punctuator::Semicolon))?;
    let node = cursor.number()?;
    cursor.note(name.token.text, NameKind::TypeName)?;
    boxed(
        cursor.alloc(),
        Alias {
            node,
            at: name.token.at,
            name: name.token.text,
            of,
        },
    )
}

/// What comes after the name of a variable or a function of the unit.
#[tactic(auto, unfolding(cx_productions::specs::Declarations::constant_or_function_after), using(crate::proofs::Begins::begins_where))]
fn constant_or_function_after<'s>(
    cursor: &mut Cursor<'_, 's>,
    depth: u32,
    context: Context,
    specifiers: Specifiers,
    of: Box<TypeSyn<'s>>,
    name: Piece<'s>,
) -> Result<Decl<'s>, Stopped>
    ensures { Reads views.decl_tree (declarations.constant_or_function_after (unit_levels depth) context (views.specifiers specifiers) (boxed_type of.entry) (piece_tree name.entry)) cursor.old result cursor.new }
{
    if specifiers.is_constexpr && cursor.begins_another(Class::Punct(Punctuator::LeftParenthesis)) {
        let constant = constant_after(cursor, depth, context, specifiers, of, name)?;
        return Ok(Decl::Constant(constant));
    }
    let place = Surroundings {
        is_member: false,
        templated: false,
    };
    let function = function_after(cursor, depth, context, place, specifiers, of, name)?;
    Ok(Decl::Function(function))
}

/// A variable or a function of the unit: a variable is constexpr.
#[tactic(auto, unfolding(cx_productions::specs::Declarations::variable_or_function))]
pub(crate) fn variable_or_function<'s>(
    cursor: &mut Cursor<'_, 's>,
    depth: u32,
    context: Context,
) -> Result<Decl<'s>, Stopped>
    ensures { Reads views.decl_tree (declarations.variable_or_function (unit_levels depth) context) cursor.old result cursor.new }
{
    let specifiers = specifiers(cursor, context, NO_SPECIFIERS)?;
    let of = type_id(cursor, depth, context)?;
    let name = cursor.take(context, Class::Name)?;
    constant_or_function_after(cursor, depth, context, specifiers, of, name)
}

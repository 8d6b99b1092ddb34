//! Declarations ([dcl.dcl]) and units ([basic.link]).

ghost use Rattle.cx_syntax.specs.Classes.{end, any_but};
ghost use Rattle.cx_syntax.specs.Combinators.{one_more_item};
ghost use Rattle.cx_syntax.specs.Productions.{repeat};
ghost use Rattle.cx_cursor.specs.Reads.{Reads};
ghost use Rattle.cx_productions.specs.Levels.{levels};
ghost use Rattle.cx_productions.specs.Units as units;
ghost use Rattle.cx_productions.specs.Units.{unit_levels};
ghost use Rattle.cx_productions.specs.Declarations as declarations;
ghost use Rattle.cx_statement_trees.specs.DeclarationViews as views;
ghost use Rattle.cx_read_decl.specs.Views.{all_declarations};

use crate::constants::{alias, variable_or_function};
use crate::structs::struct_decl;
use crate::templates::template;
use cx_cursor::{Class, Cursor};
use cx_read_stmt::assertion;
use cx_statement_trees::{Decl, Unit};
use cx_syntax::{Context, Stopped};
use cx_tokens::{Punctuator, Word};

/// `";"`
#[tactic(auto, unfolding(cx_productions::specs::Declarations::empty_decl))]
fn empty_decl<'s>(cursor: &mut Cursor<'_, 's>, context: Context) -> Result<Decl<'s>, Stopped>
    ensures { Reads views.decl_tree (declarations.empty_decl context) cursor.old result cursor.new }
{
    let semicolon = cursor.take(context, Class::Punct(Punctuator::Semicolon))?;
    let node = cursor.number()?;
    Ok(Decl::Empty {
        node,
        at: semicolon.token.at,
    })
}

/// A `static_assert` of the unit.
#[tactic(auto, unfolding(cx_productions::specs::Declarations::assert_decl))]
fn assert_decl<'s>(
    cursor: &mut Cursor<'_, 's>,
    depth: u32,
    context: Context,
) -> Result<Decl<'s>, Stopped>
    ensures { Reads views.decl_tree (declarations.assert_decl (levels depth) context) cursor.old result cursor.new }
{
    let assertion = assertion(cursor, depth, context)?;
    Ok(Decl::StaticAssert(assertion))
}

/// An alias of the unit.
#[tactic(auto, unfolding(cx_productions::specs::Declarations::alias_decl))]
fn alias_decl<'s>(
    cursor: &mut Cursor<'_, 's>,
    depth: u32,
    context: Context,
) -> Result<Decl<'s>, Stopped>
    ensures { Reads views.decl_tree (declarations.alias_decl (levels depth) context) cursor.old result cursor.new }
{
    let alias = alias(cursor, depth, context)?;
    Ok(Decl::Alias(alias))
}

/// A declaration, within its own construct.
#[tactic(auto, unfolding(cx_productions::specs::Declarations::decl))]
fn decl<'s>(cursor: &mut Cursor<'_, 's>, depth: u32, context: Context) -> Result<Decl<'s>, Stopped>
    ensures { Reads views.decl_tree (declarations.decl (unit_levels depth) context) cursor.old result cursor.new }
{
    if cursor.begins(Class::Punct(Punctuator::Semicolon)) {
        empty_decl(cursor, context)
    } else if cursor.begins(Class::Word(Word::StaticAssert)) {
        assert_decl(cursor, depth, context)
    } else if cursor.begins(Class::Word(Word::Using)) {
        alias_decl(cursor, depth, context)
    } else if cursor.begins(Class::Word(Word::Struct)) {
        struct_decl(cursor, depth, context)
    } else if cursor.begins(Class::Word(Word::Template)) {
        template(cursor, depth, context)
    } else {
        variable_or_function(cursor, depth, context)
    }
}

/// One declaration more.
fn more_decl<'s>(
    cursor: &mut Cursor<'_, 's>,
    depth: u32,
    context: Context,
    so_far: Vec<Decl<'s>>,
) -> Result<Vec<Decl<'s>>, Stopped>
    ensures { Reads all_declarations (one_more_item (declarations.decl (unit_levels depth) context) (all_declarations so_far.entry)) cursor.old result cursor.new }
{
    let decl = decl(cursor, depth, context)?;
    let mut declarations = so_far;
    declarations.push(decl)?;
    Ok(declarations)
}

/// Any number of declarations more, up to the end.
fn declarations_after<'s>(
    cursor: &mut Cursor<'_, 's>,
    depth: u32,
    context: Context,
    so_far: Vec<Decl<'s>>,
) -> Result<Vec<Decl<'s>>, Stopped>
    ensures { Reads all_declarations (repeat (λ so_far. any_but end) (one_more_item (declarations.decl (unit_levels depth) context)) (all_declarations so_far.entry)) cursor.old result cursor.new }
{
    let mut declarations = so_far;
    'turns: while cursor.begins_another(Class::End) {
        declarations = more_decl(cursor, depth, context, declarations)?;
    }
    Ok(declarations)
}

/// A unit: its declarations, each a construct, up to the end.
#[tactic(auto, unfolding(cx_productions::specs::Units::unit))]
pub fn unit<'s>(
    cursor: &mut Cursor<'_, 's>,
    depth: u32,
    context: Context,
) -> Result<Unit<'s>, Stopped>
    ensures { Reads views.unit_tree (units.unit (unit_levels depth) context) cursor.old result cursor.new }
{
    let none: Vec<Decl<'s>> = Vec::new(cursor.alloc());
    let declarations = declarations_after(cursor, depth, context.deeper(), none)?;
    cursor.take(context, Class::End)?;
    Ok(Unit { declarations })
}

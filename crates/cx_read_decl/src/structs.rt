//! Structs and their members ([class], [class.mem]).

ghost use Rattle.cx_tokens.specs.declared.punctuator.Punctuator.TheVariants as punctuator;
ghost use Rattle.cx_syntax.specs.Classes.{punct, any_but};
ghost use Rattle.cx_syntax.specs.Combinators.{one_more_item, in_scope};
ghost use Rattle.cx_syntax.specs.Productions.{repeat};
ghost use Rattle.cx_cursor.specs.Pieces.{piece_tree};
ghost use Rattle.cx_cursor.specs.Reads.{Reads};
ghost use Rattle.cx_productions.specs.Levels.{levels};
ghost use Rattle.cx_productions.specs.Units.{unit_levels};
ghost use Rattle.cx_productions.specs.Declarations as declarations;
ghost use Rattle.cx_read_expr.specs.Parts.{boxed_type};
ghost use Rattle.cx_statement_trees.specs.DeclarationViews as views;
ghost use Rattle.cx_read_decl.specs.Views.{all_members, boxed_struct};

use crate::constants::{alias, constant_after};
use crate::functions::{Surroundings, function_after};
use crate::specifiers::{STATIC, specifiers};
use cx_cursor::{Class, Cursor, Piece, boxed};
use cx_names::NameKind;
use cx_read_expr::type_id;
use cx_statement_trees::{Decl, Member, Specifiers, Struct};
use cx_syntax::{Context, Stopped};
use cx_tokens::{Punctuator, Word};
use cx_trees::TypeSyn;

/// The type of a static constant, which is constexpr.
#[tactic(auto, unfolding(cx_productions::specs::Declarations::static_type))]
fn static_type<'s>(
    cursor: &mut Cursor<'_, 's>,
    depth: u32,
    context: Context,
    specifiers: Specifiers,
) -> Result<Box<TypeSyn<'s>>, Stopped>
    ensures { Reads boxed_type (declarations.static_type (levels depth) context (views.specifiers specifiers)) cursor.old result cursor.new }
{
    if !specifiers.is_constexpr {
        cursor.take(context, Class::Nothing)?;
    }
    type_id(cursor, depth, context)
}

/// A static constant.
#[tactic(auto, unfolding(cx_productions::specs::Declarations::static_member))]
fn static_member<'s>(
    cursor: &mut Cursor<'_, 's>,
    depth: u32,
    context: Context,
) -> Result<Member<'s>, Stopped>
    ensures { Reads views.member_tree (declarations.static_member (levels depth) context) cursor.old result cursor.new }
{
    cursor.take(context, Class::Word(Word::Static))?;
    let specifiers = specifiers(cursor, context, STATIC)?;
    let of = static_type(cursor, depth, context, specifiers)?;
    let name = cursor.take(context, Class::Name)?;
    let constant = constant_after(cursor, depth, context, specifiers, of, name)?;
    Ok(Member::Constant(constant))
}

/// `";"`, after the name of a field.
#[tactic(auto, unfolding(cx_productions::specs::Declarations::field_after))]
fn field_after<'s>(
    cursor: &mut Cursor<'_, 's>,
    context: Context,
    of: Box<TypeSyn<'s>>,
    name: Piece<'s>,
) -> Result<Member<'s>, Stopped>
    ensures { Reads views.member_tree (declarations.field_after context (boxed_type of.entry) (piece_tree name.entry)) cursor.old result cursor.new }
{
    cursor.take(context, Class::Punct(Punctuator::Semicolon))?;
    let node = cursor.number()?;
    cursor.note(name.token.text, NameKind::Value)?;
    Ok(Member::Field {
        node,
        at: name.token.at,
        of,
        name: name.token.text,
    })
}

/// What comes after the name of a field, which has no specifiers, or of a function, which is not static.
#[tactic(auto, unfolding(cx_productions::specs::Declarations::field_or_function_after), using(crate::proofs::Begins::begins_where))]
fn field_or_function_after<'s>(
    cursor: &mut Cursor<'_, 's>,
    depth: u32,
    context: Context,
    templated: bool,
    specifiers: Specifiers,
    of: Box<TypeSyn<'s>>,
    name: Piece<'s>,
) -> Result<Member<'s>, Stopped>
    ensures { Reads views.member_tree (declarations.field_or_function_after templated (unit_levels depth) context (views.specifiers specifiers) (boxed_type of.entry) (piece_tree name.entry)) cursor.old result cursor.new }
{
    let has_specifier = specifiers.is_inline || specifiers.is_constexpr;
    if !has_specifier && cursor.begins(Class::Punct(Punctuator::Semicolon)) {
        return field_after(cursor, context, of, name);
    }
    let place = Surroundings {
        is_member: true,
        templated,
    };
    let specifiers = Specifiers {
        is_inline: specifiers.is_inline,
        is_static: false,
        is_constexpr: specifiers.is_constexpr,
    };
    let function = function_after(cursor, depth, context, place, specifiers, of, name)?;
    Ok(Member::Function(function))
}

/// A field or a member function.
#[tactic(auto, unfolding(cx_productions::specs::Declarations::field_or_function))]
fn field_or_function<'s>(
    cursor: &mut Cursor<'_, 's>,
    depth: u32,
    context: Context,
    templated: bool,
) -> Result<Member<'s>, Stopped>
    ensures { Reads views.member_tree (declarations.field_or_function templated (unit_levels depth) context) cursor.old result cursor.new }
{
    let specifiers = specifiers(cursor, context, STATIC)?;
    let of = type_id(cursor, depth, context)?;
    let name = cursor.take(context, Class::Name)?;
    field_or_function_after(cursor, depth, context, templated, specifiers, of, name)
}

/// `";"`
#[tactic(auto, unfolding(cx_productions::specs::Declarations::empty_member))]
fn empty_member<'s>(cursor: &mut Cursor<'_, 's>, context: Context) -> Result<Member<'s>, Stopped>
    ensures { Reads views.member_tree (declarations.empty_member context) cursor.old result cursor.new }
{
    let semicolon = cursor.take(context, Class::Punct(Punctuator::Semicolon))?;
    let node = cursor.number()?;
    Ok(Member::Empty {
        node,
        at: semicolon.token.at,
    })
}

/// An alias in a struct.
#[tactic(auto, unfolding(cx_productions::specs::Declarations::alias_member))]
fn alias_member<'s>(
    cursor: &mut Cursor<'_, 's>,
    depth: u32,
    context: Context,
) -> Result<Member<'s>, Stopped>
    ensures { Reads views.member_tree (declarations.alias_member (levels depth) context) cursor.old result cursor.new }
{
    let alias = alias(cursor, depth, context)?;
    Ok(Member::Alias(alias))
}

/// A member of a struct, or of a class that is templated.
#[tactic(auto, unfolding(cx_productions::specs::Declarations::member))]
fn member<'s>(
    cursor: &mut Cursor<'_, 's>,
    depth: u32,
    context: Context,
    templated: bool,
) -> Result<Member<'s>, Stopped>
    ensures { Reads views.member_tree (declarations.member templated (unit_levels depth) context) cursor.old result cursor.new }
{
    if cursor.begins(Class::Punct(Punctuator::Semicolon)) {
        empty_member(cursor, context)
    } else if cursor.begins(Class::Word(Word::Using)) {
        alias_member(cursor, depth, context)
    } else if cursor.begins(Class::Word(Word::Static)) {
        static_member(cursor, depth, context)
    } else {
        field_or_function(cursor, depth, context, templated)
    }
}

/// One member more.
fn more_member<'s>(
    cursor: &mut Cursor<'_, 's>,
    depth: u32,
    context: Context,
    templated: bool,
    so_far: Vec<Member<'s>>,
) -> Result<Vec<Member<'s>>, Stopped>
    ensures { Reads all_members (one_more_item (declarations.member templated (unit_levels depth) context) (all_members so_far.entry)) cursor.old result cursor.new }
{
    let member = member(cursor, depth, context, templated)?;
    let mut members = so_far;
    members.push(member)?;
    Ok(members)
}

/// Any number of members more, up to `}`.
fn members_after<'s>(
    cursor: &mut Cursor<'_, 's>,
    depth: u32,
    context: Context,
    templated: bool,
    so_far: Vec<Member<'s>>,
) -> Result<Vec<Member<'s>>, Stopped>
    ensures { Reads all_members (repeat (λ so_far. any_but (punct punctuator.RightBrace)) (one_more_item (declarations.member templated (unit_levels depth) context)) (all_members so_far.entry)) cursor.old result cursor.new }
{
    let mut members = so_far;
    'turns: while cursor.begins_another(Class::Punct(Punctuator::RightBrace)) {
        members = more_member(cursor, depth, context, templated, members)?;
    }
    Ok(members)
}

/// Members, up to `}`, in a scope of their own.
#[tactic(auto, unfolding(cx_productions::specs::Declarations::members))]
fn scoped_members<'s>(
    cursor: &mut Cursor<'_, 's>,
    depth: u32,
    context: Context,
    templated: bool,
) -> Result<Vec<Member<'s>>, Stopped>
    ensures { Reads all_members (in_scope (declarations.members templated (unit_levels depth) context)) cursor.old result cursor.new }
{
    cursor.enter()?;
    let none: Vec<Member<'s>> = Vec::new(cursor.alloc());
    let members = members_after(cursor, depth, context, templated, none)?;
    cursor.leave();
    Ok(members)
}

/// `"{" { member } "}" ";"`
#[tactic(auto, unfolding(cx_productions::specs::Declarations::struct_body))]
fn struct_body<'s>(
    cursor: &mut Cursor<'_, 's>,
    depth: u32,
    context: Context,
    templated: bool,
) -> Result<Vec<Member<'s>>, Stopped>
    ensures { Reads all_members (declarations.struct_body templated (unit_levels depth) context) cursor.old result cursor.new }
{
    cursor.take(context.deeper(), Class::Punct(Punctuator::LeftBrace))?;
    let members = scoped_members(cursor, depth, context.inside(), templated)?;
    cursor.take(context.deeper(), Class::Punct(Punctuator::RightBrace))?;
    cursor.take(context, Class::Punct(Punctuator::Semicolon))?;
    Ok(members)
}

/// ... as the struct of a name.
#[tactic(auto, unfolding(cx_productions::specs::Declarations::struct_after))]
pub(crate) fn struct_after<'s>(
    cursor: &mut Cursor<'_, 's>,
    depth: u32,
    context: Context,
    templated: bool,
    name: Piece<'s>,
) -> Result<Box<Struct<'s>>, Stopped>
    ensures { Reads boxed_struct (declarations.struct_after templated (unit_levels depth) context (piece_tree name.entry)) cursor.old result cursor.new }
{
    let members = struct_body(cursor, depth, context, templated)?;
    let node = cursor.number()?;
    boxed(
        cursor.alloc(),
        Struct {
            node,
            at: name.token.at,
            name: name.token.text,
            members,
        },
    )
}

/// A struct of the unit. Its name is declared at once.
#[tactic(auto, unfolding(cx_productions::specs::Declarations::struct_decl))]
pub(crate) fn struct_decl<'s>(
    cursor: &mut Cursor<'_, 's>,
    depth: u32,
    context: Context,
) -> Result<Decl<'s>, Stopped>
    ensures { Reads views.decl_tree (declarations.struct_decl (unit_levels depth) context) cursor.old result cursor.new }
{
    cursor.take(context, Class::Word(Word::Struct))?;
    let name = cursor.take(context, Class::Name)?;
    cursor.note(name.token.text, NameKind::TypeName)?;
    let item = struct_after(cursor, depth, context, false, name)?;
    Ok(Decl::Struct(item))
}

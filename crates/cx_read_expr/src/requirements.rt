//! Requires-expressions ([expr.prim.req]), and constraints of types ([temp.param]).

ghost use Rattle.std.specs.Prelude.{[], ◌∷◌, Some, None, map};
ghost use Rattle.std.specs.Option.{option_map};
ghost use Rattle.cx_tokens.specs.declared.punctuator.Punctuator.TheVariants as punctuator;
ghost use Rattle.cx_syntax.specs.Classes.{punct, any_but};
ghost use Rattle.cx_syntax.specs.Combinators as combinators;
ghost use Rattle.cx_syntax.specs.Productions.{repeat};
ghost use Rattle.cx_syntax.specs.Contexts.{deeper};
ghost use Rattle.cx_cursor.specs.Pieces.{piece_tree};
ghost use Rattle.cx_cursor.specs.Reads.{Reads};
ghost use Rattle.cx_trees.specs.Views.{requirement_tree};
ghost use Rattle.cx_productions.specs.Levels.{levels};
ghost use Rattle.cx_productions.specs.Requires as requirements;
ghost use Rattle.cx_productions.specs.Types as types;
ghost use Rattle.cx_read_expr.specs.Parts.{all_arguments, all_requirements, boxed_constraint, boxed_expr, boxed_type, placed_core, maybe_constraint};

use crate::arguments::argument_list;
use crate::below::expr_below;
use crate::cores::{PlacedCore, as_type, class_core, placed, type_name_core};
use crate::names::member_names;
use crate::parameters::maybe_locals;
use crate::precedence::{EXPRESSION_LEVEL, LOGICAL_OR_LEVEL};
use cx_cursor::{Class, Cursor, Piece, boxed};
use cx_names::NameKind;
use cx_syntax::{Context, Stopped};
use cx_tokens::{Punctuator, Word};
use cx_trees::{Constraint, Core, Expr, Requirement, TemplateArgument, TypeSyn};

/// A list of template arguments, or none.
#[cycle(reading)]
fn maybe_arguments<'s>(
    cursor: &mut Cursor<'_, 's>,
    depth: u32,
    context: Context,
) -> Result<Vec<TemplateArgument<'s>>, Stopped>
    ensures { Reads all_arguments (combinators.optional (punct punctuator.Less) (types.argument_list (levels depth) context) []) cursor.old result cursor.new }
{
    if cursor.begins(Class::Punct(Punctuator::Less)) {
        argument_list(cursor, depth, context)
    } else {
        Ok(Vec::new(cursor.alloc()))
    }
}

/// A concept that constrains a type, with arguments or none ([temp.param]).
#[cycle(reading)]
#[tactic(auto, unfolding(cx_productions::specs::Requires::constraint))]
pub fn constraint<'s>(
    cursor: &mut Cursor<'_, 's>,
    depth: u32,
    context: Context,
) -> Result<Box<Constraint<'s>>, Stopped>
    ensures { Reads boxed_constraint (requirements.constraint (levels depth) context) cursor.old result cursor.new }
{
    let name = cursor.take(context, Class::NameOf(NameKind::Concept))?;
    let arguments = maybe_arguments(cursor, depth, context)?;
    let node = cursor.number()?;
    let constraint = Constraint {
        node,
        at: name.token.at,
        name: name.token.text,
        arguments,
    };
    boxed(cursor.alloc(), constraint)
}

/// An expression and `;` ([expr.prim.req.simple]).
#[cycle(reading)]
#[tactic(auto, unfolding(cx_productions::specs::Requires::simple_requirement))]
fn simple_requirement<'s>(
    cursor: &mut Cursor<'_, 's>,
    depth: u32,
    context: Context,
) -> Result<Requirement<'s>, Stopped>
    ensures { Reads requirement_tree (requirements.simple_requirement (levels depth) context) cursor.old result cursor.new }
{
    let expr = expr_below(cursor, depth, EXPRESSION_LEVEL, context)?;
    cursor.take(context, Class::Punct(Punctuator::Semicolon))?;
    let node = cursor.number()?;
    let at = expr.at();
    Ok(Requirement::Simple { node, at, expr })
}

/// Names after a head, which make a member type that stands at a piece.
#[tactic(auto, unfolding(cx_productions::specs::Requires::required_member))]
fn required_member<'s>(
    cursor: &mut Cursor<'_, 's>,
    first: Piece<'s>,
    core: PlacedCore<'s>,
    context: Context,
) -> Result<PlacedCore<'s>, Stopped>
    ensures { Reads placed_core (requirements.required_member context (piece_tree first.entry) (placed_core core.entry)) cursor.old result cursor.new }
{
    let head = as_type(cursor, core)?;
    let names = member_names(cursor, context)?;
    placed(
        cursor.alloc(),
        first.token.at,
        Core::MemberType(head, names),
    )
}

/// A class template with arguments, and names or none, or the name of a type and names, after `typename`.
#[cycle(reading)]
#[tactic(auto, unfolding(cx_productions::specs::Requires::required_core))]
fn required_core<'s>(
    cursor: &mut Cursor<'_, 's>,
    depth: u32,
    first: Piece<'s>,
    context: Context,
) -> Result<PlacedCore<'s>, Stopped>
    ensures { Reads placed_core (requirements.required_core (levels depth) context (piece_tree first.entry)) cursor.old result cursor.new }
{
    if !cursor.begins(Class::NameOf(NameKind::ClassTemplate)) {
        let core = type_name_core(cursor, context)?;
        return required_member(cursor, first, core, context);
    }
    let core = class_core(cursor, depth, context)?;
    if cursor.begins(Class::Punct(Punctuator::ColonColon)) {
        return required_member(cursor, first, core, context);
    }
    Ok(core)
}

/// `typename`, a type, and `;` ([expr.prim.req.type]).
#[cycle(reading)]
#[tactic(auto, unfolding(cx_productions::specs::Requires::type_requirement))]
fn type_requirement<'s>(
    cursor: &mut Cursor<'_, 's>,
    depth: u32,
    context: Context,
) -> Result<Requirement<'s>, Stopped>
    ensures { Reads requirement_tree (requirements.type_requirement (levels depth) context) cursor.old result cursor.new }
{
    let first = cursor.take(context, Class::Word(Word::Typename))?;
    let at = first.token.at;
    let core = required_core(cursor, depth, first, context)?;
    let type_node = cursor.number()?;
    cursor.take(context, Class::Punct(Punctuator::Semicolon))?;
    let node = cursor.number()?;
    let syn = TypeSyn {
        node: type_node,
        at,
        constant: false,
        core_at: core.at,
        core: Box::into_inner(core.core),
        reference: false,
    };
    let of = boxed(cursor.alloc(), syn)?;
    Ok(Requirement::OfType { node, at, of })
}

/// `->` and a constraint.
#[cycle(reading)]
#[tactic(auto, unfolding(cx_productions::specs::Requires::result_constraint))]
fn result_constraint<'s>(
    cursor: &mut Cursor<'_, 's>,
    depth: u32,
    context: Context,
) -> Result<Box<Constraint<'s>>, Stopped>
    ensures { Reads boxed_constraint (requirements.result_constraint (levels depth) context) cursor.old result cursor.new }
{
    cursor.take(context, Class::Punct(Punctuator::Arrow))?;
    constraint(cursor, depth, context)
}

/// `->` and a constraint, or nothing.
#[cycle(reading)]
fn maybe_result<'s>(
    cursor: &mut Cursor<'_, 's>,
    depth: u32,
    context: Context,
) -> Result<Option<Box<Constraint<'s>>>, Stopped>
    ensures { Reads maybe_constraint (combinators.maybe (punct punctuator.Arrow) (requirements.result_constraint (levels depth) context)) cursor.old result cursor.new }
{
    if !cursor.begins(Class::Punct(Punctuator::Arrow)) {
        return Ok(None);
    }
    let constraint = result_constraint(cursor, depth, context)?;
    Ok(Some(constraint))
}

/// An expression in braces, a constraint of its type or none, and `;` ([expr.prim.req.compound]).
#[cycle(reading)]
#[tactic(auto, unfolding(cx_productions::specs::Requires::compound_requirement))]
fn compound_requirement<'s>(
    cursor: &mut Cursor<'_, 's>,
    depth: u32,
    context: Context,
) -> Result<Requirement<'s>, Stopped>
    ensures { Reads requirement_tree (requirements.compound_requirement (levels depth) context) cursor.old result cursor.new }
{
    let opening = cursor.take(context.deeper(), Class::Punct(Punctuator::LeftBrace))?;
    let expr = expr_below(cursor, depth, EXPRESSION_LEVEL, context.inside())?;
    cursor.take(context.deeper(), Class::Punct(Punctuator::RightBrace))?;
    let constraint = maybe_result(cursor, depth, context)?;
    cursor.take(context, Class::Punct(Punctuator::Semicolon))?;
    let node = cursor.number()?;
    Ok(Requirement::Compound {
        node,
        at: opening.token.at,
        expr,
        constraint,
    })
}

/// `requires`, an expression without assignments and conditionals, and `;` ([expr.prim.req.nested]).
#[cycle(reading)]
#[tactic(auto, unfolding(cx_productions::specs::Requires::nested_requirement))]
fn nested_requirement<'s>(
    cursor: &mut Cursor<'_, 's>,
    depth: u32,
    context: Context,
) -> Result<Requirement<'s>, Stopped>
    ensures { Reads requirement_tree (requirements.nested_requirement (levels depth) context) cursor.old result cursor.new }
{
    let first = cursor.take(context, Class::Word(Word::Requires))?;
    let expr = expr_below(cursor, depth, LOGICAL_OR_LEVEL, context)?;
    cursor.take(context, Class::Punct(Punctuator::Semicolon))?;
    let node = cursor.number()?;
    let at = first.token.at;
    Ok(Requirement::Nested { node, at, expr })
}

/// A requirement.
#[cycle(reading)]
#[tactic(auto, unfolding(cx_productions::specs::Requires::requirement))]
fn requirement<'s>(
    cursor: &mut Cursor<'_, 's>,
    depth: u32,
    context: Context,
) -> Result<Requirement<'s>, Stopped>
    ensures { Reads requirement_tree (requirements.requirement (levels depth) context) cursor.old result cursor.new }
{
    if cursor.begins(Class::Word(Word::Typename)) {
        type_requirement(cursor, depth, context)
    } else if cursor.begins(Class::Word(Word::Requires)) {
        nested_requirement(cursor, depth, context)
    } else if cursor.begins(Class::Punct(Punctuator::LeftBrace)) {
        compound_requirement(cursor, depth, context)
    } else {
        simple_requirement(cursor, depth, context)
    }
}

/// One requirement more.
#[cycle(reading)]
fn more_requirement<'s>(
    cursor: &mut Cursor<'_, 's>,
    depth: u32,
    so_far: Vec<Requirement<'s>>,
    context: Context,
) -> Result<Vec<Requirement<'s>>, Stopped>
    ensures { Reads all_requirements (combinators.one_more_item (requirements.requirement (levels depth) context) (map requirement_tree so_far.entry.items)) cursor.old result cursor.new }
{
    let requirement = requirement(cursor, depth, context)?;
    let mut requirements = so_far;
    requirements.push(requirement)?;
    Ok(requirements)
}

/// Any number of requirements more, up to `}`.
#[cycle(reading)]
fn requirements_after<'s>(
    cursor: &mut Cursor<'_, 's>,
    depth: u32,
    so_far: Vec<Requirement<'s>>,
    context: Context,
) -> Result<Vec<Requirement<'s>>, Stopped>
    ensures { Reads all_requirements (repeat (λ so_far. any_but (punct punctuator.RightBrace)) (combinators.one_more_item (requirements.requirement (levels depth) context)) (map requirement_tree so_far.entry.items)) cursor.old result cursor.new }
{
    let mut requirements = so_far;
    'turns: while cursor.begins_another(Class::Punct(Punctuator::RightBrace)) {
        requirements = more_requirement(cursor, depth, requirements, context)?;
    }
    Ok(requirements)
}

/// One requirement or more, up to `}`.
#[cycle(reading)]
#[tactic(auto, unfolding(cx_productions::specs::Requires::requirement_list))]
fn requirement_list<'s>(
    cursor: &mut Cursor<'_, 's>,
    depth: u32,
    context: Context,
) -> Result<Vec<Requirement<'s>>, Stopped>
    ensures { Reads all_requirements (requirements.requirement_list (levels depth) context) cursor.old result cursor.new }
{
    let inner = context.deeper();
    let first = requirement(cursor, depth, inner)?;
    let mut requirements: Vec<Requirement<'s>> = Vec::new(cursor.alloc());
    requirements.push(first)?;
    requirements_after(cursor, depth, requirements, inner)
}

/// A requires-expression ([expr.prim.req]). The names of its parameters are forgotten after it.
#[cycle(reading)]
#[tactic(auto, unfolding(cx_productions::specs::Requires::requires_expr))]
pub fn requires_expr<'s>(
    cursor: &mut Cursor<'_, 's>,
    depth: u32,
    context: Context,
) -> Result<Box<Expr<'s>>, Stopped>
    ensures { Reads boxed_expr (requirements.requires_expr (levels depth) context) cursor.old result cursor.new }
{
    let first = cursor.take(context, Class::Word(Word::Requires))?;
    cursor.enter()?;
    let parameters = maybe_locals(cursor, depth, context)?;
    cursor.take(context.deeper(), Class::Punct(Punctuator::LeftBrace))?;
    let requirements = requirement_list(cursor, depth, context.inside())?;
    cursor.take(context.deeper(), Class::Punct(Punctuator::RightBrace))?;
    let node = cursor.number()?;
    let requires_it = Expr::Requires {
        node,
        at: first.token.at,
        parameters,
        requirements,
    };
    let expr = boxed(cursor.alloc(), requires_it)?;
    cursor.leave();
    Ok(expr)
}

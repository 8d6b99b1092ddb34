//! Templates ([temp.pre]), concepts ([temp.concept]) and specialisations ([temp.class.spec], [temp.expl.spec]).

ghost use Rattle.std.specs.Prelude.{◌≡◌, ◌&&◌, not, map};
ghost use Rattle.std.specs.List.{list_any};
ghost use Rattle.cx_cursor.specs.Pieces.{piece_tree};
ghost use Rattle.cx_cursor.specs.Reads.{Reads};
ghost use Rattle.cx_productions.specs.DeclarationTrees.{templated_place};
ghost use Rattle.cx_productions.specs.Levels.{levels};
ghost use Rattle.cx_productions.specs.Units.{unit_levels};
ghost use Rattle.cx_productions.specs.Declarations as declarations;
ghost use Rattle.cx_statement_trees.specs.DeclarationViews as views;

use crate::functions::{Surroundings, function_after, maybe_clause};
use crate::specifiers::{NO_SPECIFIERS, specifiers};
use crate::structs::struct_after;
use crate::template_parameters::template_parameters;
use cx_base::Place;
use cx_cursor::{Class, Cursor, Piece};
use cx_names::NameKind;
use cx_read_expr::{LOGICAL_OR_LEVEL, argument_list, expr, type_id};
use cx_statement_trees::{Decl, TemplateParameter, Templated};
use cx_syntax::{Context, Stopped};
use cx_tokens::{Punctuator, Word};

/// `"concept" Name "=" lor ";"`. The name is declared after the `;`.
#[tactic(auto, unfolding(cx_productions::specs::Declarations::concept))]
fn concept<'s>(
    cursor: &mut Cursor<'_, 's>,
    depth: u32,
    context: Context,
) -> Result<Templated<'s>, Stopped>
    ensures { Reads views.templated_tree (declarations.concept (levels depth) context) cursor.old result cursor.new }
{
    cursor.take(context, Class::Word(Word::Concept))?;
    let name = cursor.take(context, Class::Name)?;
    cursor.take(context, Class::Punct(Punctuator::Equal))?;
    let condition = expr(cursor, depth, LOGICAL_OR_LEVEL, context)?;
    cursor.take(context, Class::Punct(Punctuator::Semicolon))?;
    let node = cursor.number()?;
    cursor.note_around(1, name.token.text, NameKind::Concept)?;
    Ok(Templated::Concept {
        node,
        at: name.token.at,
        name: name.token.text,
        condition,
    })
}

/// A specialisation, after the name of its class template.
#[tactic(auto, unfolding(cx_productions::specs::Declarations::specialisation))]
fn specialisation<'s>(
    cursor: &mut Cursor<'_, 's>,
    depth: u32,
    context: Context,
    full: bool,
    name: Piece<'s>,
) -> Result<Templated<'s>, Stopped>
    ensures { Reads views.templated_tree (declarations.specialisation full (unit_levels depth) context (piece_tree name.entry)) cursor.old result cursor.new }
{
    let arguments = argument_list(cursor, depth, context)?;
    let item = struct_after(cursor, depth, context, !full, name)?;
    Ok(Templated::Specialisation(item, arguments))
}

/// A class template, after its name, which is declared at once.
#[tactic(auto, unfolding(cx_productions::specs::Declarations::struct_template))]
fn struct_template<'s>(
    cursor: &mut Cursor<'_, 's>,
    depth: u32,
    context: Context,
    name: Piece<'s>,
) -> Result<Templated<'s>, Stopped>
    ensures { Reads views.templated_tree (declarations.struct_template (unit_levels depth) context (piece_tree name.entry)) cursor.old result cursor.new }
{
    cursor.note_around(1, name.token.text, NameKind::ClassTemplate)?;
    let item = struct_after(cursor, depth, context, true, name)?;
    Ok(Templated::Struct(item))
}

/// The name of a class template: a specialisation where `<` stands after it, else a new template.
#[tactic(auto, unfolding(cx_productions::specs::Declarations::specialised_or_new))]
fn specialised_or_new<'s>(
    cursor: &mut Cursor<'_, 's>,
    depth: u32,
    context: Context,
) -> Result<Templated<'s>, Stopped>
    ensures { Reads views.templated_tree (declarations.specialised_or_new (unit_levels depth) context) cursor.old result cursor.new }
{
    let name = cursor.take(context, Class::NameOf(NameKind::ClassTemplate))?;
    if cursor.begins(Class::Punct(Punctuator::Less)) {
        specialisation(cursor, depth, context, false, name)
    } else {
        struct_template(cursor, depth, context, name)
    }
}

/// A struct in a template: only a full specialisation has an empty list of parameters, and it has no other.
#[tactic(auto, unfolding(cx_productions::specs::Declarations::templated_struct))]
fn templated_struct<'s>(
    cursor: &mut Cursor<'_, 's>,
    depth: u32,
    context: Context,
    full: bool,
) -> Result<Templated<'s>, Stopped>
    ensures { Reads views.templated_tree (declarations.templated_struct full (unit_levels depth) context) cursor.old result cursor.new }
{
    cursor.take(context, Class::Word(Word::Struct))?;
    if full {
        let name = cursor.take(context, Class::NameOf(NameKind::ClassTemplate))?;
        return specialisation(cursor, depth, context, true, name);
    }
    if cursor.begins(Class::NameOf(NameKind::ClassTemplate)) {
        return specialised_or_new(cursor, depth, context);
    }
    let name = cursor.take(context, Class::Name)?;
    struct_template(cursor, depth, context, name)
}

/// A function in a template.
#[tactic(auto, unfolding(cx_productions::specs::Declarations::function_template))]
fn function_template<'s>(
    cursor: &mut Cursor<'_, 's>,
    depth: u32,
    context: Context,
) -> Result<Templated<'s>, Stopped>
    ensures { Reads views.templated_tree (declarations.function_template (unit_levels depth) context) cursor.old result cursor.new }
{
    let specifiers = specifiers(cursor, context, NO_SPECIFIERS)?;
    let of = type_id(cursor, depth, context)?;
    let name = cursor.take(context, Class::Name)?;
    let place = Surroundings {
        is_member: false,
        templated: true,
    };
    let function = function_after(cursor, depth, context, place, specifiers, of, name)?;
    Ok(Templated::Function(function))
}

/// Whether a template parameter is constrained.
fn is_constrained(parameter: &TemplateParameter<'_>) -> bool
    ensures { result ≡ declarations.is_constrained (views.template_parameter parameter.now) }
{
    matches!(parameter, TemplateParameter::Constrained { .. })
}

/// Whether one of some template parameters is constrained.
fn some_constrained(parameters: &[TemplateParameter<'_>]) -> bool
    ensures { result ≡ list_any (λ parameter. declarations.is_constrained (views.template_parameter parameter)) parameters.now }
{
    parameters.iter().any(|parameter| is_constrained(parameter))
}

/// Whether one of the trees of some template parameters is constrained.
#[tactic(auto, using(crate::proofs::Autos::any_constrained_of))]
fn any_constrained(parameters: &[TemplateParameter<'_>]) -> bool
    ensures { result ≡ declarations.any_constrained (map views.template_parameter parameters.now) }
{
    some_constrained(parameters)
}

/// Whether a template has no parameters: then it is a full specialisation.
#[tactic(auto, using(crate::proofs::Autos::empty_of))]
fn is_full(parameters: &[TemplateParameter<'_>]) -> bool
    ensures { result ≡ declarations.is_empty (map views.template_parameter parameters.now) }
{
    parameters.is_empty()
}

/// What a template declares, after its parameters and its clause.
#[tactic(auto, unfolding(cx_productions::specs::Declarations::templated), using(crate::proofs::Begins::begins_where))]
fn templated<'s>(
    cursor: &mut Cursor<'_, 's>,
    depth: u32,
    context: Context,
    parameters: &[TemplateParameter<'s>],
    has_clause: bool,
) -> Result<Templated<'s>, Stopped>
    ensures { Reads views.templated_tree (declarations.templated (map views.template_parameter parameters.now) has_clause (unit_levels depth) context) cursor.old result cursor.new }
{
    if is_full(parameters) {
        return templated_struct(cursor, depth, context, true);
    }
    if cursor.begins(Class::Word(Word::Struct)) {
        return templated_struct(cursor, depth, context, false);
    }
    let may_be_concept = !has_clause && !any_constrained(parameters);
    if may_be_concept && cursor.begins(Class::Word(Word::Concept)) {
        return concept(cursor, depth, context);
    }
    function_template(cursor, depth, context)
}

/// The place of what a template declares.
fn templated_place(templated: &Templated<'_>) -> Place
    ensures { result ≡ (templated_place (views.templated_tree templated.now)).at }
{
    match templated {
        Templated::Function(function) => function.at,
        Templated::Struct(item) => item.at,
        Templated::Concept { at, .. } => *at,
        Templated::Specialisation(item, _) => item.at,
    }
}

/// The parameters of a template, its clause, and what it declares.
#[tactic(auto, unfolding(cx_productions::specs::Declarations::template_parts))]
fn template_parts<'s>(
    cursor: &mut Cursor<'_, 's>,
    depth: u32,
    context: Context,
) -> Result<Decl<'s>, Stopped>
    ensures { Reads views.decl_tree (declarations.template_parts (unit_levels depth) context) cursor.old result cursor.new }
{
    let inner = context.listed();
    cursor.take(context.deeper(), Class::Punct(Punctuator::Less))?;
    let parameters = template_parameters(cursor, depth, inner)?;
    cursor.take(context.deeper(), Class::Closing(inner.lists))?;
    let clause = maybe_clause(cursor, depth, context, true)?;
    let templated = templated(
        cursor,
        depth,
        context,
        parameters.as_slice(),
        clause.is_some(),
    )?;
    let node = cursor.number()?;
    Ok(Decl::Template {
        node,
        at: templated_place(&templated),
        parameters,
        clause,
        templated,
    })
}

/// A template. Its parameters are forgotten after it.
#[tactic(auto, unfolding(cx_productions::specs::Declarations::template))]
pub(crate) fn template<'s>(
    cursor: &mut Cursor<'_, 's>,
    depth: u32,
    context: Context,
) -> Result<Decl<'s>, Stopped>
    ensures { Reads views.decl_tree (declarations.template (unit_levels depth) context) cursor.old result cursor.new }
{
    cursor.take(context, Class::Word(Word::Template))?;
    cursor.enter()?;
    let declared = template_parts(cursor, depth, context)?;
    cursor.leave();
    Ok(declared)
}

//! Template parameters ([temp.param]).

ghost use Rattle.std.specs.Prelude.{◌≡◌};
ghost use Rattle.std.specs.Option.{option_map};
ghost use Rattle.cx_tokens.specs.declared.punctuator.Punctuator.TheVariants as punctuator;
ghost use Rattle.cx_syntax.specs.Classes.{punct};
ghost use Rattle.cx_syntax.specs.Combinators.{one_more};
ghost use Rattle.cx_syntax.specs.Productions.{repeat};
ghost use Rattle.cx_cursor.specs.Reads.{Reads};
ghost use Rattle.cx_trees.specs.Views.{core_tree};
ghost use Rattle.cx_productions.specs.Levels.{levels};
ghost use Rattle.cx_productions.specs.Declarations as declarations;
ghost use Rattle.cx_read_expr.specs.Parts.{boxed_expr, boxed_type};
ghost use Rattle.cx_statement_trees.specs.DeclarationViews as views;
ghost use Rattle.cx_read_decl.specs.Views.{all_template_parameters};

use crate::names::{maybe_name, note_maybe, place_of_name, text_of_name};
use cx_base::Scalar;
use cx_cursor::{Class, Cursor};
use cx_names::NameKind;
use cx_read_expr::{EXPRESSION_LEVEL, constraint, expr, scalar_core, type_id};
use cx_statement_trees::TemplateParameter;
use cx_syntax::{Context, Stopped};
use cx_tokens::Punctuator;
use cx_trees::{Core, Expr, TypeSyn};

/// `[ "=" type ]`
#[tactic(auto, unfolding(cx_productions::specs::Declarations::default_type))]
fn default_type<'s>(
    cursor: &mut Cursor<'_, 's>,
    depth: u32,
    context: Context,
) -> Result<Option<Box<TypeSyn<'s>>>, Stopped>
    ensures { Reads (λ t. option_map boxed_type t) (declarations.default_type (levels depth) context) cursor.old result cursor.new }
{
    if !cursor.begins(Class::Punct(Punctuator::Equal)) {
        return Ok(None);
    }
    cursor.take(context, Class::Punct(Punctuator::Equal))?;
    let of = type_id(cursor, depth, context)?;
    Ok(Some(of))
}

/// `[ "=" carg ]`
#[tactic(auto, unfolding(cx_productions::specs::Declarations::default_value))]
fn default_value<'s>(
    cursor: &mut Cursor<'_, 's>,
    depth: u32,
    context: Context,
) -> Result<Option<Box<Expr<'s>>>, Stopped>
    ensures { Reads (λ e. option_map boxed_expr e) (declarations.default_value (levels depth) context) cursor.old result cursor.new }
{
    if !cursor.begins(Class::Punct(Punctuator::Equal)) {
        return Ok(None);
    }
    cursor.take(context, Class::Punct(Punctuator::Equal))?;
    let value = expr(cursor, depth, EXPRESSION_LEVEL, context)?;
    Ok(Some(value))
}

/// `( "typename" | "class" ) [ Name ] [ "=" type ]`
#[tactic(auto, unfolding(cx_productions::specs::Declarations::type_parameter))]
fn type_parameter<'s>(
    cursor: &mut Cursor<'_, 's>,
    depth: u32,
    context: Context,
) -> Result<TemplateParameter<'s>, Stopped>
    ensures { Reads views.template_parameter (declarations.type_parameter (levels depth) context) cursor.old result cursor.new }
{
    let word = cursor.take(context, Class::TypeWord)?;
    let name = maybe_name(cursor, context)?;
    let default = default_type(cursor, depth, context)?;
    let node = cursor.number()?;
    note_maybe(cursor, NameKind::TypeName, name)?;
    Ok(TemplateParameter::Type {
        node,
        at: place_of_name(word.token.at, name),
        name: text_of_name(name),
        default,
    })
}

/// `cref [ Name ] [ "=" type ]`
#[tactic(auto, unfolding(cx_productions::specs::Declarations::constrained_type_parameter))]
fn constrained_type_parameter<'s>(
    cursor: &mut Cursor<'_, 's>,
    depth: u32,
    context: Context,
) -> Result<TemplateParameter<'s>, Stopped>
    ensures { Reads views.template_parameter (declarations.constrained_type_parameter (levels depth) context) cursor.old result cursor.new }
{
    let constraint = constraint(cursor, depth, context)?;
    let name = maybe_name(cursor, context)?;
    let default = default_type(cursor, depth, context)?;
    let node = cursor.number()?;
    note_maybe(cursor, NameKind::TypeName, name)?;
    Ok(TemplateParameter::Constrained {
        node,
        at: place_of_name(constraint.at, name),
        constraint,
        name: text_of_name(name),
        default,
    })
}

/// The scalar that a core is.
fn scalar_of(core: &Core<'_>) -> Scalar
    ensures { result ≡ declarations.scalar_of (core_tree core.now) }
{
    match core {
        Core::Scalar(scalar) => *scalar,
        _ => Scalar::Int,
    }
}

/// `scalar [ Name ] [ "=" carg ]`
#[tactic(auto, unfolding(cx_productions::specs::Declarations::value_parameter))]
fn value_parameter<'s>(
    cursor: &mut Cursor<'_, 's>,
    depth: u32,
    context: Context,
) -> Result<TemplateParameter<'s>, Stopped>
    ensures { Reads views.template_parameter (declarations.value_parameter (levels depth) context) cursor.old result cursor.new }
{
    let core = scalar_core(cursor, context)?;
    let at = core.at;
    let scalar = scalar_of(&core.core);
    let name = maybe_name(cursor, context)?;
    let default = default_value(cursor, depth, context)?;
    let node = cursor.number()?;
    note_maybe(cursor, NameKind::Value, name)?;
    Ok(TemplateParameter::Value {
        node,
        at: place_of_name(at, name),
        scalar,
        name: text_of_name(name),
        default,
    })
}

/// A template parameter.
#[tactic(auto, unfolding(cx_productions::specs::Declarations::template_parameter))]
fn template_parameter<'s>(
    cursor: &mut Cursor<'_, 's>,
    depth: u32,
    context: Context,
) -> Result<TemplateParameter<'s>, Stopped>
    ensures { Reads views.template_parameter (declarations.template_parameter (levels depth) context) cursor.old result cursor.new }
{
    if cursor.begins(Class::TypeWord) {
        type_parameter(cursor, depth, context)
    } else if cursor.begins(Class::NameOf(NameKind::Concept)) {
        constrained_type_parameter(cursor, depth, context)
    } else {
        value_parameter(cursor, depth, context)
    }
}

/// `,` and one template parameter more.
fn more_template_parameter<'s>(
    cursor: &mut Cursor<'_, 's>,
    depth: u32,
    context: Context,
    so_far: Vec<TemplateParameter<'s>>,
) -> Result<Vec<TemplateParameter<'s>>, Stopped>
    ensures { Reads all_template_parameters (one_more context (declarations.template_parameter (levels depth) context) (all_template_parameters so_far.entry)) cursor.old result cursor.new }
{
    cursor.take(context, Class::Punct(Punctuator::Comma))?;
    let parameter = template_parameter(cursor, depth, context)?;
    let mut parameters = so_far;
    parameters.push(parameter)?;
    Ok(parameters)
}

/// Any number of template parameters more.
fn template_parameters_after<'s>(
    cursor: &mut Cursor<'_, 's>,
    depth: u32,
    context: Context,
    so_far: Vec<TemplateParameter<'s>>,
) -> Result<Vec<TemplateParameter<'s>>, Stopped>
    ensures { Reads all_template_parameters (repeat (λ so_far. punct punctuator.Comma) (one_more context (declarations.template_parameter (levels depth) context)) (all_template_parameters so_far.entry)) cursor.old result cursor.new }
{
    let mut parameters = so_far;
    'turns: while cursor.begins(Class::Punct(Punctuator::Comma)) {
        parameters = more_template_parameter(cursor, depth, context, parameters)?;
    }
    Ok(parameters)
}

/// None or more template parameters, up to `>`.
#[tactic(auto, unfolding(cx_productions::specs::Declarations::template_parameters))]
pub(crate) fn template_parameters<'s>(
    cursor: &mut Cursor<'_, 's>,
    depth: u32,
    context: Context,
) -> Result<Vec<TemplateParameter<'s>>, Stopped>
    ensures { Reads all_template_parameters (declarations.template_parameters (levels depth) context) cursor.old result cursor.new }
{
    let mut parameters: Vec<TemplateParameter<'s>> = Vec::new(cursor.alloc());
    if cursor.begins(Class::Closing(context.lists)) {
        return Ok(parameters);
    }
    let first = template_parameter(cursor, depth, context)?;
    parameters.push(first)?;
    template_parameters_after(cursor, depth, context, parameters)
}

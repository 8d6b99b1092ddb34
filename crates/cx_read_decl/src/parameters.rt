//! Parameters of functions ([dcl.fct]).

ghost use Rattle.std.specs.Prelude.{[], ◌∷◌, map};
ghost use Rattle.cx_tokens.specs.declared.punctuator.Punctuator.TheVariants as punctuator;
ghost use Rattle.cx_syntax.specs.Classes.{punct};
ghost use Rattle.cx_syntax.specs.Combinators.{one_more, separated, separated_after};
ghost use Rattle.cx_syntax.specs.Productions.{repeat};
ghost use Rattle.cx_cursor.specs.Reads.{Reads};
ghost use Rattle.cx_productions.specs.Levels.{levels};
ghost use Rattle.cx_productions.specs.Parameters.{void_parameters};
ghost use Rattle.cx_productions.specs.Declarations as declarations;
ghost use Rattle.cx_read_expr.specs.Parts.{boxed_type};
ghost use Rattle.cx_statement_trees.specs.StatementViews.{written_type};
ghost use Rattle.cx_statement_trees.specs.DeclarationViews.{parameter_tree};
ghost use Rattle.cx_read_decl.specs.Views.{maybe_constraint, all_parameters};

use crate::names::{maybe_name, note_maybe, place_of_name, place_or, text_of_name};
use cx_base::Place;
use cx_cursor::{Class, Cursor};
use cx_names::NameKind;
use cx_read_expr::{constraint, core, placed, type_after, type_id};
use cx_read_stmt::auto_after;
use cx_statement_trees::{Parameter, WrittenType};
use cx_syntax::{Context, Stopped};
use cx_tokens::{Punctuator, Word};
use cx_trees::{Constraint, Core, TypeSyn};

/// `[ Name ]`, after the type of a parameter: it is declared at once.
#[tactic(auto, unfolding(cx_productions::specs::Declarations::parameter_after))]
fn parameter_after<'s>(
    cursor: &mut Cursor<'_, 's>,
    context: Context,
    at: Place,
    written: WrittenType<'s>,
) -> Result<Parameter<'s>, Stopped>
    ensures { Reads parameter_tree (declarations.parameter_after context at (written_type written.entry)) cursor.old result cursor.new }
{
    let name = maybe_name(cursor, context)?;
    note_maybe(cursor, NameKind::Value, name)?;
    let node = cursor.number()?;
    Ok(Parameter {
        node,
        at: place_of_name(at, name),
        written,
        name: text_of_name(name),
    })
}

/// A parameter whose type is read.
#[tactic(auto, unfolding(cx_productions::specs::Declarations::typed_parameter))]
fn typed_parameter<'s>(
    cursor: &mut Cursor<'_, 's>,
    context: Context,
    of: Box<TypeSyn<'s>>,
) -> Result<Parameter<'s>, Stopped>
    ensures { Reads parameter_tree (declarations.typed_parameter context (boxed_type of.entry)) cursor.old result cursor.new }
{
    let at = of.at();
    parameter_after(cursor, context, at, WrittenType::Type(of))
}

/// A parameter with `auto`, of which is told what stands before it.
#[tactic(auto, unfolding(cx_productions::specs::Declarations::auto_parameter))]
fn auto_parameter<'s>(
    cursor: &mut Cursor<'_, 's>,
    context: Context,
    at: Option<Place>,
    is_const: bool,
    constraint: Option<Box<Constraint<'s>>>,
) -> Result<Parameter<'s>, Stopped>
    ensures { Reads parameter_tree (declarations.auto_parameter context at is_const (maybe_constraint constraint.entry)) cursor.old result cursor.new }
{
    let auto = auto_after(cursor, context, at, is_const, constraint)?;
    let at = auto.at;
    parameter_after(cursor, context, at, WrittenType::Auto(auto))
}

/// A parameter whose `auto` is constrained.
#[tactic(auto, unfolding(cx_productions::specs::Declarations::constrained_parameter))]
fn constrained_parameter<'s>(
    cursor: &mut Cursor<'_, 's>,
    depth: u32,
    context: Context,
    at: Option<Place>,
    is_const: bool,
) -> Result<Parameter<'s>, Stopped>
    ensures { Reads parameter_tree (declarations.constrained_parameter (levels depth) context at is_const) cursor.old result cursor.new }
{
    let constraint = constraint(cursor, depth, context)?;
    let at = place_or(constraint.at, at);
    auto_parameter(cursor, context, Some(at), is_const, Some(constraint))
}

/// A parameter that begins with `const`.
#[tactic(auto, unfolding(cx_productions::specs::Declarations::const_parameter), using(crate::proofs::Begins::begins_where))]
fn const_parameter<'s>(
    cursor: &mut Cursor<'_, 's>,
    depth: u32,
    context: Context,
    autos: bool,
) -> Result<Parameter<'s>, Stopped>
    ensures { Reads parameter_tree (declarations.const_parameter autos (levels depth) context) cursor.old result cursor.new }
{
    let word = cursor.take(context, Class::Word(Word::Const))?;
    let at = word.token.at;
    if autos && cursor.begins(Class::NameOf(NameKind::Concept)) {
        return constrained_parameter(cursor, depth, context, Some(at), true);
    }
    if autos && cursor.begins(Class::Word(Word::Auto)) {
        return auto_parameter(cursor, context, Some(at), true, None);
    }
    let core = core(cursor, depth, context.deeper())?;
    let of = type_after(cursor, at, true, core, context)?;
    typed_parameter(cursor, context, of)
}

/// A parameter of a type that does not begin with `const`.
#[tactic(auto, unfolding(cx_productions::specs::Declarations::plain_parameter))]
fn plain_parameter<'s>(
    cursor: &mut Cursor<'_, 's>,
    depth: u32,
    context: Context,
) -> Result<Parameter<'s>, Stopped>
    ensures { Reads parameter_tree (declarations.plain_parameter (levels depth) context) cursor.old result cursor.new }
{
    let of = type_id(cursor, depth, context)?;
    typed_parameter(cursor, context, of)
}

/// A parameter, where `auto` may stand or not.
#[tactic(auto, unfolding(cx_productions::specs::Declarations::parameter), using(crate::proofs::Begins::begins_where))]
fn parameter<'s>(
    cursor: &mut Cursor<'_, 's>,
    depth: u32,
    context: Context,
    autos: bool,
) -> Result<Parameter<'s>, Stopped>
    ensures { Reads parameter_tree (declarations.parameter autos (levels depth) context) cursor.old result cursor.new }
{
    if cursor.begins(Class::Word(Word::Const)) {
        const_parameter(cursor, depth, context, autos)
    } else if autos && cursor.begins(Class::NameOf(NameKind::Concept)) {
        constrained_parameter(cursor, depth, context, None, false)
    } else if autos && cursor.begins(Class::Word(Word::Auto)) {
        auto_parameter(cursor, context, None, false, None)
    } else {
        plain_parameter(cursor, depth, context)
    }
}

/// `,` and one parameter more.
fn more_parameter<'s>(
    cursor: &mut Cursor<'_, 's>,
    depth: u32,
    context: Context,
    autos: bool,
    so_far: Vec<Parameter<'s>>,
) -> Result<Vec<Parameter<'s>>, Stopped>
    ensures { Reads all_parameters (one_more context (declarations.parameter autos (levels depth) context) (all_parameters so_far.entry)) cursor.old result cursor.new }
{
    cursor.take(context, Class::Punct(Punctuator::Comma))?;
    let parameter = parameter(cursor, depth, context, autos)?;
    let mut parameters = so_far;
    parameters.push(parameter)?;
    Ok(parameters)
}

/// Any number of parameters more.
fn parameters_after<'s>(
    cursor: &mut Cursor<'_, 's>,
    depth: u32,
    context: Context,
    autos: bool,
    so_far: Vec<Parameter<'s>>,
) -> Result<Vec<Parameter<'s>>, Stopped>
    ensures { Reads all_parameters (repeat (λ so_far. punct punctuator.Comma) (one_more context (declarations.parameter autos (levels depth) context)) (all_parameters so_far.entry)) cursor.old result cursor.new }
{
    let mut parameters = so_far;
    'turns: while cursor.begins(Class::Punct(Punctuator::Comma)) {
        parameters = more_parameter(cursor, depth, context, autos, parameters)?;
    }
    Ok(parameters)
}

/// Any number of parameters more, after a first one.
fn parameters_from<'s>(
    cursor: &mut Cursor<'_, 's>,
    depth: u32,
    context: Context,
    autos: bool,
    first: Parameter<'s>,
) -> Result<Vec<Parameter<'s>>, Stopped>
    ensures { Reads all_parameters (separated_after context (declarations.parameter autos (levels depth) context) (parameter_tree first.entry)) cursor.old result cursor.new }
{
    let mut parameters: Vec<Parameter<'s>> = Vec::new(cursor.alloc());
    parameters.push(first)?;
    parameters_after(cursor, depth, context, autos, parameters)
}

/// One parameter or more.
fn some_parameters<'s>(
    cursor: &mut Cursor<'_, 's>,
    depth: u32,
    context: Context,
    autos: bool,
) -> Result<Vec<Parameter<'s>>, Stopped>
    ensures { Reads all_parameters (separated context (declarations.parameter autos (levels depth) context)) cursor.old result cursor.new }
{
    let first = parameter(cursor, depth, context, autos)?;
    parameters_from(cursor, depth, context, autos, first)
}

/// Parameters that begin with `void`, which alone is none.
fn void_parameters<'s>(
    cursor: &mut Cursor<'_, 's>,
    depth: u32,
    context: Context,
    autos: bool,
) -> Result<Vec<Parameter<'s>>, Stopped>
    ensures { Reads all_parameters (void_parameters context (declarations.typed_parameter context) (declarations.parameter autos (levels depth) context)) cursor.old result cursor.new }
{
    let word = cursor.take(context, Class::Word(Word::Void))?;
    if cursor.begins(Class::Punct(Punctuator::RightParenthesis)) {
        return Ok(Vec::new(cursor.alloc()));
    }
    cursor.count(context.deeper(), word)?;
    let at = word.token.at;
    let core = placed(cursor.alloc(), at, Core::Void)?;
    let of = type_after(cursor, at, false, core, context)?;
    let first = typed_parameter(cursor, context, of)?;
    parameters_from(cursor, depth, context, autos, first)
}

/// None or more parameters, up to `)`.
#[tactic(auto, unfolding(cx_productions::specs::Declarations::parameters))]
pub(crate) fn parameters<'s>(
    cursor: &mut Cursor<'_, 's>,
    depth: u32,
    context: Context,
    autos: bool,
) -> Result<Vec<Parameter<'s>>, Stopped>
    ensures { Reads all_parameters (declarations.parameters autos (levels depth) context) cursor.old result cursor.new }
{
    if cursor.begins(Class::Punct(Punctuator::RightParenthesis)) {
        Ok(Vec::new(cursor.alloc()))
    } else if cursor.begins(Class::Word(Word::Void)) {
        void_parameters(cursor, depth, context, autos)
    } else {
        some_parameters(cursor, depth, context, autos)
    }
}

//! Functions ([dcl.fct.def]): what comes after their names.

ghost use Rattle.std.specs.Prelude.{◌≡◌, map};
ghost use Rattle.std.specs.List.{list_any};
ghost use Rattle.std.specs.Option.{option_map};
ghost use Rattle.cx_tokens.specs.declared.word.Word.TheVariants as words;
ghost use Rattle.cx_syntax.specs.Classes.{word, where_holds};
ghost use Rattle.cx_syntax.specs.Combinators.{flag};
ghost use Rattle.cx_cursor.specs.Pieces.{piece_tree};
ghost use Rattle.cx_cursor.specs.Reads.{Reads};
ghost use Rattle.cx_productions.specs.Levels.{levels};
ghost use Rattle.cx_productions.specs.Units.{unit_levels};
ghost use Rattle.cx_productions.specs.Declarations as declarations;
ghost use Rattle.cx_read_expr.specs.Parts.{boxed_expr, boxed_type};
ghost use Rattle.cx_statement_trees.specs.StatementViews.{written_type};
ghost use Rattle.cx_statement_trees.specs.DeclarationViews as views;
ghost use Rattle.cx_read_decl.specs.Views.{surroundings, boxed_stmt, boxed_function, all_parameters};

use crate::parameters::parameters;
use cx_cursor::{Class, Cursor, Piece, boxed};
use cx_names::NameKind;
use cx_read_expr::{clause, flag};
use cx_read_stmt::block;
use cx_statement_trees::{FunctionDecl, Parameter, Specifiers, Stmt, WrittenType};
use cx_syntax::{Context, Stopped};
use cx_tokens::{Punctuator, Word};
use cx_trees::{Expr, TypeSyn};

/// Where a function is declared: as a member or not, and within a template or not.
#[derive(Clone, Copy)]
pub(crate) struct Surroundings {
    pub is_member: bool,
    pub templated: bool,
}

/// Whether the type of a parameter is `auto`.
fn is_auto(parameter: &Parameter<'_>) -> bool
    ensures { result ≡ declarations.is_auto_type (written_type parameter.now.written) }
{
    matches!(parameter.written, WrittenType::Auto(_))
}

/// Whether one of some parameters is `auto`.
fn any_auto(parameters: &[Parameter<'_>]) -> bool
    ensures { result ≡ list_any (λ parameter. declarations.is_auto_type (written_type parameter.written)) parameters.now }
{
    parameters.iter().any(|parameter| is_auto(parameter))
}

/// Whether one of the trees of some parameters is `auto`.
#[tactic(auto, using(crate::proofs::Autos::any_auto))]
fn has_auto(parameters: &[Parameter<'_>]) -> bool
    ensures { result ≡ declarations.has_auto (map views.parameter_tree parameters.now) }
{
    any_auto(parameters)
}

/// Whether a function is a template.
fn is_template(place: Surroundings, parameters: &[Parameter<'_>]) -> bool
    ensures { result ≡ declarations.is_template (surroundings place) (map views.parameter_tree parameters.now) }
{
    (place.templated && !place.is_member) || has_auto(parameters)
}

/// What the name of a function is.
fn function_kind(is_template: bool) -> NameKind
    ensures { result ≡ declarations.function_kind is_template }
{
    if is_template {
        NameKind::FunctionTemplate
    } else {
        NameKind::Function
    }
}

/// How many scopes stand between the parameters of a function and the scope in which its name is declared.
fn scopes_between(place: Surroundings) -> usize
    ensures { result ≡ declarations.scopes_between (surroundings place) }
{
    if place.templated && !place.is_member {
        2
    } else {
        1
    }
}

/// The clause of a requires, where it may stand.
#[tactic(auto, unfolding(cx_productions::specs::Declarations::maybe_clause), using(crate::proofs::Begins::begins_where))]
pub(crate) fn maybe_clause<'s>(
    cursor: &mut Cursor<'_, 's>,
    depth: u32,
    context: Context,
    templated: bool,
) -> Result<Option<Box<Expr<'s>>>, Stopped>
    ensures { Reads (λ k. option_map boxed_expr k) (declarations.maybe_clause templated (levels depth) context) cursor.old result cursor.new }
{
    if !(templated && cursor.begins(Class::Word(Word::Requires))) {
        return Ok(None);
    }
    cursor.take(context, Class::Word(Word::Requires))?;
    let clause = clause(cursor, depth, context)?;
    Ok(Some(clause))
}

/// The body of a function, or `;`.
#[tactic(auto, unfolding(cx_productions::specs::Declarations::function_body))]
fn function_body<'s>(
    cursor: &mut Cursor<'_, 's>,
    depth: u32,
    context: Context,
) -> Result<Option<Box<Stmt<'s>>>, Stopped>
    ensures { Reads (λ b. option_map boxed_stmt b) (declarations.function_body (unit_levels depth) context) cursor.old result cursor.new }
{
    if cursor.begins(Class::Punct(Punctuator::Semicolon)) {
        cursor.take(context, Class::Punct(Punctuator::Semicolon))?;
        return Ok(None);
    }
    let body = block(cursor, depth, context)?;
    Ok(Some(body))
}

/// `[ "const" ]`, where it may stand.
#[tactic(auto, using(crate::proofs::Begins::flag_none))]
fn const_of_member(
    cursor: &mut Cursor<'_, '_>,
    context: Context,
    is_member: bool,
) -> Result<bool, Stopped>
    ensures { Reads (λ b. b) (flag context (where_holds is_member (word words.Const))) cursor.old result cursor.new }
{
    if is_member {
        flag(cursor, Class::Word(Word::Const), context)
    } else {
        Ok(false)
    }
}

/// What comes after the parameters of a function.
#[tactic(auto, unfolding(cx_productions::specs::Declarations::function_rest))]
fn function_rest<'s>(
    cursor: &mut Cursor<'_, 's>,
    depth: u32,
    context: Context,
    place: Surroundings,
    specifiers: Specifiers,
    result_type: Box<TypeSyn<'s>>,
    name: Piece<'s>,
    parameters: Vec<Parameter<'s>>,
) -> Result<Box<FunctionDecl<'s>>, Stopped>
    ensures { Reads boxed_function (declarations.function_rest (surroundings place) (unit_levels depth) context (views.specifiers specifiers) (boxed_type result_type.entry) (piece_tree name.entry) (all_parameters parameters.entry)) cursor.old result cursor.new }
{
    let is_const = const_of_member(cursor, context, place.is_member)?;
    let templated = place.templated || has_auto(parameters.as_slice());
    let trailing = maybe_clause(cursor, depth, context, templated)?;
    let body = function_body(cursor, depth, context)?;
    let node = cursor.number()?;
    boxed(
        cursor.alloc(),
        FunctionDecl {
            node,
            at: name.token.at,
            specifiers,
            result: result_type,
            name: name.token.text,
            parameters,
            is_const,
            trailing,
            body,
        },
    )
}

/// What comes after the name of a function, within the scope of its parameters. The name is declared after them.
#[tactic(auto, unfolding(cx_productions::specs::Declarations::function_parts))]
fn function_parts<'s>(
    cursor: &mut Cursor<'_, 's>,
    depth: u32,
    context: Context,
    place: Surroundings,
    specifiers: Specifiers,
    result_type: Box<TypeSyn<'s>>,
    name: Piece<'s>,
) -> Result<Box<FunctionDecl<'s>>, Stopped>
    ensures { Reads boxed_function (declarations.function_parts (surroundings place) (unit_levels depth) context (views.specifiers specifiers) (boxed_type result_type.entry) (piece_tree name.entry)) cursor.old result cursor.new }
{
    cursor.take(context.deeper(), Class::Punct(Punctuator::LeftParenthesis))?;
    let parameters = parameters(cursor, depth, context.inside(), !place.is_member)?;
    cursor.take(context.deeper(), Class::Punct(Punctuator::RightParenthesis))?;
    let kind = function_kind(is_template(place, parameters.as_slice()));
    cursor.note_around(scopes_between(place), name.token.text, kind)?;
    function_rest(
        cursor,
        depth,
        context,
        place,
        specifiers,
        result_type,
        name,
        parameters,
    )
}

/// What comes after the name of a function. Its parameters are forgotten after it.
#[tactic(auto, unfolding(cx_productions::specs::Declarations::function_after))]
pub(crate) fn function_after<'s>(
    cursor: &mut Cursor<'_, 's>,
    depth: u32,
    context: Context,
    place: Surroundings,
    specifiers: Specifiers,
    result_type: Box<TypeSyn<'s>>,
    name: Piece<'s>,
) -> Result<Box<FunctionDecl<'s>>, Stopped>
    ensures { Reads boxed_function (declarations.function_after (surroundings place) (unit_levels depth) context (views.specifiers specifiers) (boxed_type result_type.entry) (piece_tree name.entry)) cursor.old result cursor.new }
{
    cursor.enter()?;
    let function = function_parts(cursor, depth, context, place, specifiers, result_type, name)?;
    cursor.leave();
    Ok(function)
}

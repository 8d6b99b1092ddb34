//! Where a statement, or the head of a `for`, begins with a type, an `auto` or an expression that begins like one.

ghost use Rattle.std.specs.Prelude.{◌≡◌, IfOk, IfErr};
ghost use Rattle.cx_trees.specs.Views.{type_tree, expr_tree, constraint_tree};
ghost use Rattle.cx_productions.specs.Levels.{levels};
ghost use Rattle.cx_productions.specs.Statements as statements;
ghost use Rattle.cx_statement_trees.specs.StatementViews.{opening_tree, auto_tree};
ghost use Rattle.cx_syntax.specs.declared.stopped.Stopped.TheVariants.{NoMemory};
ghost use Rattle.cx_read_expr.specs.Parts.{placed_core, operand_of};
ghost use Rattle.cx_cursor.specs.Reads.{Reads};

use crate::auto::{auto_after, place_or};
use crate::variables::{auto_variable_after, variable_after};
use cx_base::Place;
use cx_cursor::{Class, Cursor, boxed};
use cx_names::NameKind;
use cx_productions::Calling;
use cx_read_expr::{
    EXPRESSION_LEVEL, Operand, PlacedCore, after_head, constraint, core, expr, expr_of, head_core,
    list_after, scalar_after, scalar_at, scalar_of_word, type_after, type_id,
};
use cx_statement_trees::{Auto, Opening};
use cx_syntax::{Context, Stopped};
use cx_tokens::{Punctuator, Word};
use cx_trees::{Constraint, Expr, TypeSyn};
use std::alloc::Global;

#[tactic(auto, unfolding(cx_productions::specs::Statements::variable_of))]
fn variable_of<'s>(
    cursor: &mut Cursor<'_, 's>,
    depth: u32,
    context: Context,
    is_constexpr: bool,
    of: Box<TypeSyn<'s>>,
) -> Result<Opening<'s>, Stopped>
    ensures { Reads opening_tree (statements.variable_of (levels depth) context is_constexpr (type_tree of.entry.value)) cursor.old result cursor.new }
{
    let variable = variable_after(cursor, depth, context, is_constexpr, of)?;
    Ok(Opening::Variable(variable))
}

#[tactic(auto, unfolding(cx_productions::specs::Statements::variable_of_auto))]
fn variable_of_auto<'s>(
    cursor: &mut Cursor<'_, 's>,
    depth: u32,
    context: Context,
    is_constexpr: bool,
    of: Box<Auto<'s>>,
) -> Result<Opening<'s>, Stopped>
    ensures { Reads opening_tree (statements.variable_of_auto (levels depth) context is_constexpr (auto_tree of.entry.value)) cursor.old result cursor.new }
{
    let variable = auto_variable_after(cursor, depth, context, is_constexpr, of)?;
    Ok(Opening::Variable(variable))
}

/// An expression whose first operand is read, and `;`.
#[tactic(auto, unfolding(cx_productions::specs::Statements::expr_opening))]
fn expr_opening<'s>(
    cursor: &mut Cursor<'_, 's>,
    depth: u32,
    context: Context,
    first: Operand<'s>,
) -> Result<Opening<'s>, Stopped>
    ensures { Reads opening_tree (statements.expr_opening (levels depth) context (operand_of first.entry)) cursor.old result cursor.new }
{
    let expr = expr_of(cursor, depth, first, context)?;
    cursor.take(context, Class::Punct(Punctuator::Semicolon))?;
    Ok(Opening::Expression(expr))
}

/// ... where that operand is not called.
fn uncalled_opening<'s>(
    cursor: &mut Cursor<'_, 's>,
    depth: u32,
    context: Context,
    tree: Box<Expr<'s>>,
) -> Result<Opening<'s>, Stopped>
    ensures { Reads opening_tree (statements.uncalled_opening (levels depth) context (expr_tree tree.entry.value)) cursor.old result cursor.new }
{
    expr_opening(
        cursor,
        depth,
        context,
        Operand {
            tree,
            calling: Calling::Never,
        },
    )
}

/// `expr ";"`
#[tactic(auto, unfolding(cx_productions::specs::Statements::whole_expr))]
fn whole_expr<'s>(
    cursor: &mut Cursor<'_, 's>,
    depth: u32,
    context: Context,
) -> Result<Opening<'s>, Stopped>
    ensures { Reads opening_tree (statements.whole_expr (levels depth) context) cursor.old result cursor.new }
{
    let expr = expr(cursor, depth, EXPRESSION_LEVEL, context)?;
    cursor.take(context, Class::Punct(Punctuator::Semicolon))?;
    Ok(Opening::Expression(expr))
}

/// A variable of a type whose core is read.
#[tactic(auto, unfolding(cx_productions::specs::Statements::variable_of_core))]
fn variable_of_core<'s>(
    cursor: &mut Cursor<'_, 's>,
    depth: u32,
    context: Context,
    core: PlacedCore<'s>,
) -> Result<Opening<'s>, Stopped>
    ensures { Reads opening_tree (statements.variable_of_core (levels depth) context (placed_core core.entry)) cursor.old result cursor.new }
{
    let at = core.at;
    let of = type_after(cursor, at, false, core, context)?;
    variable_of(cursor, depth, context, false, of)
}

/// After a core: a list in braces makes an expression of it.
#[tactic(auto, unfolding(cx_productions::specs::Statements::core_opening_after))]
fn core_opening_after<'s>(
    cursor: &mut Cursor<'_, 's>,
    depth: u32,
    context: Context,
    core: PlacedCore<'s>,
) -> Result<Opening<'s>, Stopped>
    ensures { Reads opening_tree (statements.core_opening_after (levels depth) context (placed_core core.entry)) cursor.old result cursor.new }
{
    if !cursor.begins(Class::Punct(Punctuator::LeftBrace)) {
        return variable_of_core(cursor, depth, context, core);
    }
    let operand = list_after(cursor, depth, core, context)?;
    uncalled_opening(cursor, depth, context, operand)
}

/// ... and after a head so does `::`.
#[tactic(auto, unfolding(cx_productions::specs::Statements::head_opening_after))]
fn head_opening_after<'s>(
    cursor: &mut Cursor<'_, 's>,
    depth: u32,
    context: Context,
    core: PlacedCore<'s>,
) -> Result<Opening<'s>, Stopped>
    ensures { Reads opening_tree (statements.head_opening_after (levels depth) context (placed_core core.entry)) cursor.old result cursor.new }
{
    if !cursor.begins(Class::AfterHead) {
        return variable_of_core(cursor, depth, context, core);
    }
    let operand = after_head(cursor, depth, core, context)?;
    uncalled_opening(cursor, depth, context, operand)
}

#[tactic(auto, unfolding(cx_productions::specs::Statements::head_opening))]
fn head_opening<'s>(
    cursor: &mut Cursor<'_, 's>,
    depth: u32,
    context: Context,
) -> Result<Opening<'s>, Stopped>
    ensures { Reads opening_tree (statements.head_opening (levels depth) context) cursor.old result cursor.new }
{
    let core = head_core(cursor, depth, context.deeper())?;
    head_opening_after(cursor, depth, context, core)
}

#[tactic(auto, unfolding(cx_productions::specs::Statements::core_opening))]
fn core_opening<'s>(
    cursor: &mut Cursor<'_, 's>,
    depth: u32,
    context: Context,
) -> Result<Opening<'s>, Stopped>
    ensures { Reads opening_tree (statements.core_opening (levels depth) context) cursor.old result cursor.new }
{
    let core = core(cursor, depth, context.deeper())?;
    core_opening_after(cursor, depth, context, core)
}

/// A scalar: of one word, it may be a list's type.
#[tactic(auto, unfolding(cx_productions::specs::Statements::scalar_opening))]
fn scalar_opening<'s>(
    cursor: &mut Cursor<'_, 's>,
    depth: u32,
    context: Context,
) -> Result<Opening<'s>, Stopped>
    ensures { Reads opening_tree (statements.scalar_opening (levels depth) context) cursor.old result cursor.new }
{
    let word = cursor.take(context.deeper(), Class::ScalarWord)?;
    if cursor.begins(Class::Punct(Punctuator::LeftBrace)) {
        let core = scalar_at(cursor.alloc(), word, scalar_of_word(word))?;
        let operand = list_after(cursor, depth, core, context)?;
        uncalled_opening(cursor, depth, context, operand)
    } else {
        let scalar = scalar_after(cursor, word, context.deeper())?;
        let core = scalar_at(cursor.alloc(), word, scalar)?;
        variable_of_core(cursor, depth, context, core)
    }
}

/// A variable of a type.
#[tactic(auto, unfolding(cx_productions::specs::Statements::typed_variable))]
fn typed_variable<'s>(
    cursor: &mut Cursor<'_, 's>,
    depth: u32,
    context: Context,
    is_constexpr: bool,
) -> Result<Opening<'s>, Stopped>
    ensures { Reads opening_tree (statements.typed_variable (levels depth) context is_constexpr) cursor.old result cursor.new }
{
    let of = type_id(cursor, depth, context)?;
    variable_of(cursor, depth, context, is_constexpr, of)
}

/// A variable whose `auto` is constrained.
#[tactic(auto, unfolding(cx_productions::specs::Statements::constrained_auto))]
fn constrained_auto<'s>(
    cursor: &mut Cursor<'_, 's>,
    depth: u32,
    context: Context,
    at: Option<Place>,
    is_constexpr: bool,
    is_const: bool,
) -> Result<Opening<'s>, Stopped>
    ensures { Reads opening_tree (statements.constrained_auto (levels depth) context at is_constexpr is_const) cursor.old result cursor.new }
{
    let constraint = constraint(cursor, depth, context)?;
    let at = place_or(constraint.at, at);
    let of = auto_after(cursor, context, Some(at), is_const, Some(constraint))?;
    variable_of_auto(cursor, depth, context, is_constexpr, of)
}

/// A variable whose `auto` is not constrained.
#[tactic(auto, unfolding(cx_productions::specs::Statements::plain_auto))]
fn plain_auto<'s>(
    cursor: &mut Cursor<'_, 's>,
    depth: u32,
    context: Context,
    at: Option<Place>,
    is_constexpr: bool,
    is_const: bool,
) -> Result<Opening<'s>, Stopped>
    ensures { Reads opening_tree (statements.plain_auto (levels depth) context at is_constexpr is_const) cursor.old result cursor.new }
{
    let of = auto_after(cursor, context, at, is_const, None)?;
    variable_of_auto(cursor, depth, context, is_constexpr, of)
}

/// A variable that begins with `const`.
#[tactic(auto, unfolding(cx_productions::specs::Statements::const_variable))]
fn const_variable<'s>(
    cursor: &mut Cursor<'_, 's>,
    depth: u32,
    context: Context,
    is_constexpr: bool,
) -> Result<Opening<'s>, Stopped>
    ensures { Reads opening_tree (statements.const_variable (levels depth) context is_constexpr) cursor.old result cursor.new }
{
    let word = cursor.take(context, Class::Word(Word::Const))?;
    let at = word.token.at;
    if cursor.begins(Class::NameOf(NameKind::Concept)) {
        return constrained_auto(cursor, depth, context, Some(at), is_constexpr, true);
    }
    if cursor.begins(Class::Word(Word::Auto)) {
        return plain_auto(cursor, depth, context, Some(at), is_constexpr, true);
    }
    let core = core(cursor, depth, context.deeper())?;
    let of = type_after(cursor, at, true, core, context)?;
    variable_of(cursor, depth, context, is_constexpr, of)
}

/// A declaration of a variable ([stmt.dcl]), no expression.
#[tactic(auto, unfolding(cx_productions::specs::Statements::variable))]
fn variable<'s>(
    cursor: &mut Cursor<'_, 's>,
    depth: u32,
    context: Context,
    is_constexpr: bool,
) -> Result<Opening<'s>, Stopped>
    ensures { Reads opening_tree (statements.variable (levels depth) context is_constexpr) cursor.old result cursor.new }
{
    if cursor.begins(Class::Word(Word::Const)) {
        const_variable(cursor, depth, context, is_constexpr)
    } else if cursor.begins(Class::NameOf(NameKind::Concept)) {
        constrained_auto(cursor, depth, context, None, is_constexpr, false)
    } else if cursor.begins(Class::Word(Word::Auto)) {
        plain_auto(cursor, depth, context, None, is_constexpr, false)
    } else {
        typed_variable(cursor, depth, context, is_constexpr)
    }
}

/// `constexpr` and a variable.
#[tactic(auto, unfolding(cx_productions::specs::Statements::constexpr_variable))]
fn constexpr_variable<'s>(
    cursor: &mut Cursor<'_, 's>,
    depth: u32,
    context: Context,
) -> Result<Opening<'s>, Stopped>
    ensures { Reads opening_tree (statements.constexpr_variable (levels depth) context) cursor.old result cursor.new }
{
    cursor.take(context, Class::Word(Word::Constexpr))?;
    variable(cursor, depth, context, true)
}

/// The expression that a concept's name is, with its arguments or none. Refuses for want of memory alone.
fn concept_expr<'s>(
    alloc: Global,
    constraint: Box<Constraint<'s>>,
) -> Result<Box<Expr<'s>>, Stopped>
    ensures value { IfOk result (λ e. expr_tree e.value ≡ statements.concept_expr (constraint_tree constraint.entry.value)) }
    ensures only_memory { IfErr result (λ e. e ≡ NoMemory) }
{
    let Constraint {
        node,
        at,
        name,
        arguments,
    } = Box::into_inner(constraint);
    if arguments.as_slice().is_empty() {
        boxed(alloc, Expr::Name { node, at, name })
    } else {
        boxed(
            alloc,
            Expr::Template {
                node,
                at,
                name,
                arguments,
            },
        )
    }
}

/// A concept's name: after it and its arguments `auto` makes a variable of it.
#[tactic(auto, unfolding(cx_productions::specs::Statements::concept_opening))]
fn concept_opening<'s>(
    cursor: &mut Cursor<'_, 's>,
    depth: u32,
    context: Context,
) -> Result<Opening<'s>, Stopped>
    ensures { Reads opening_tree (statements.concept_opening (levels depth) context) cursor.old result cursor.new }
{
    let constraint = constraint(cursor, depth, context)?;
    if cursor.begins(Class::Word(Word::Auto)) {
        let at = constraint.at;
        let of = auto_after(cursor, context, Some(at), false, Some(constraint))?;
        variable_of_auto(cursor, depth, context, false, of)
    } else {
        let tree = concept_expr(cursor.alloc(), constraint)?;
        expr_opening(
            cursor,
            depth,
            context,
            Operand {
                tree,
                calling: Calling::May,
            },
        )
    }
}

/// A variable or an expression: a type followed by `{` begins an expression, and so does a head followed by `::`.
#[tactic(auto, unfolding(cx_productions::specs::Statements::opening))]
pub(crate) fn opening<'s>(
    cursor: &mut Cursor<'_, 's>,
    depth: u32,
    context: Context,
) -> Result<Opening<'s>, Stopped>
    ensures { Reads opening_tree (statements.opening (levels depth) context) cursor.old result cursor.new }
{
    if cursor.begins(Class::Word(Word::Constexpr)) {
        constexpr_variable(cursor, depth, context)
    } else if cursor.begins(Class::Word(Word::Const)) {
        const_variable(cursor, depth, context, false)
    } else if cursor.begins(Class::Word(Word::Auto)) {
        plain_auto(cursor, depth, context, None, false, false)
    } else if cursor.begins(Class::NameOf(NameKind::Concept)) {
        concept_opening(cursor, depth, context)
    } else if cursor.begins(Class::HeadName) {
        head_opening(cursor, depth, context)
    } else if cursor.begins(Class::CoreWord) {
        core_opening(cursor, depth, context)
    } else if cursor.begins(Class::ScalarWord) {
        scalar_opening(cursor, depth, context)
    } else if cursor.begins(Class::Word(Word::Long)) {
        typed_variable(cursor, depth, context, false)
    } else {
        whole_expr(cursor, depth, context)
    }
}

//! The stage of forms: which forms are built, and what a unit defines that has these alone.

ghost use Rattle.std.specs.Prelude.{◌≡◌, ◌≤◌, map, Some, None, if◌then◌else◌, IsTrue};
ghost use Rattle.std.specs.Option.{option_map};
ghost use Rattle.cx_base.specs.Refusal.{Gives};
ghost use Rattle.cx_tree.specs.Trees.{expr_tree, exprs, type_tree};
ghost use Rattle.cx_tree.specs.Statements.{stmts};
ghost use Rattle.cx_statements.specs.StatementViews.{stmt_tree};
ghost use Rattle.cx_statements.specs.DeclarationViews.{specifiers, function_decl, decl_tree, unit_tree};
ghost use Rattle.cx_engine.specs.Definitions.{definition_tree};
ghost use Rattle.cx_engine.specs.Forms.{mention_of, is_int_literal, is_built_unary, plain_operator, unbuilt_in, unbuilt_type, unbuilt_stmt, unbuilt_stmts, unbuilt_body, has_specifiers, is_built_head, unbuilt_function, unbuilt_decl, forms_unit};

use crate::definitions::{Definition, definition_of};
use crate::faults::unsupported;
use cx_base::{Place, Scalar, Stop};
use cx_plain::BinaryOperator as PlainOperator;
use cx_statements::{Decl, FunctionDecl, Specifiers, Stmt, Unit};
use cx_tree::{BinaryOperator, Core, Expr, TypeSyn, UnaryOperator};
use std::alloc::Global;

/// Whether a literal is one of type int, whose value it then has.
pub(crate) fn is_int_literal(scalar: Scalar, value: u64) -> bool
    ensures same { result ≡ is_int_literal scalar value }
    ensures fits { IsTrue result → value ≤ 2147483647 }
{
    scalar == Scalar::Int && value <= 2147483647
}

/// A name that is called without arguments, and where it stands.
#[derive(Clone, Copy)]
pub(crate) struct Mention<'s> {
    pub name: &'s str,
    pub at: Place,
}

/// What a call names, where it is that of a name without arguments.
#[tactic(auto, using(crate::proofs::FormsLemmas::no_mention))]
pub(crate) fn called_name<'s>(callee: &Expr<'s>, arguments: &[Expr<'s>]) -> Option<Mention<'s>>
    ensures { option_map (λ m. record { name = m.name.now; at = m.at }) result ≡ mention_of (expr_tree callee.now) (exprs (map expr_tree arguments.now)) }
{
    if !arguments.is_empty() {
        return None;
    }
    match callee {
        Expr::Name { at, name, .. } => Some(Mention { name, at: *at }),
        _ => None,
    }
}

fn is_built_unary(operator: UnaryOperator) -> bool
    ensures { result ≡ is_built_unary operator }
{
    match operator {
        UnaryOperator::Plus | UnaryOperator::Minus | UnaryOperator::Complement => true,
        UnaryOperator::Not | UnaryOperator::Increment | UnaryOperator::Decrement => false,
    }
}

/// The operator of plain expressions that a binary operator has, where it is built.
pub(crate) fn plain_operator(operator: BinaryOperator) -> Option<PlainOperator>
    ensures { result ≡ plain_operator operator }
{
    match operator {
        BinaryOperator::Multiply => Some(PlainOperator::Multiply),
        BinaryOperator::Divide => Some(PlainOperator::Divide),
        BinaryOperator::Remainder => Some(PlainOperator::Remainder),
        BinaryOperator::Add => Some(PlainOperator::Add),
        BinaryOperator::Subtract => Some(PlainOperator::Subtract),
        BinaryOperator::BitAnd => Some(PlainOperator::BitAnd),
        BinaryOperator::BitXor => Some(PlainOperator::BitXor),
        BinaryOperator::BitOr => Some(PlainOperator::BitOr),
        _ => None,
    }
}

/// The place, unless the form is built.
fn unless(built: bool, at: Place) -> Option<Place>
    ensures { result ≡ (if built then None else Some at) }
{
    if built { None } else { Some(at) }
}

/// The place of the first node of an expression whose form is not built.
fn unbuilt_in(expr: &Expr) -> Option<Place>
    ensures { result ≡ unbuilt_in (expr_tree expr.now) }
{
    match expr {
        Expr::Int {
            at,
            scalar,
            value,
            ..
        } => unless(is_int_literal(*scalar, *value), *at),
        Expr::Call {
            at,
            callee,
            arguments,
            ..
        } => unless(called_name(callee, arguments).is_some(), *at),
        Expr::Group { inner, .. } => unbuilt_in(inner),
        Expr::Unary {
            operator,
            operand,
            ..
        } if is_built_unary(*operator) => unbuilt_in(operand),
        Expr::Binary {
            operator,
            left,
            right,
            ..
        } if plain_operator(*operator).is_some() => {
            match unbuilt_in(left) {
                Some(at) => Some(at),
                None => unbuilt_in(right),
            }
        }
        _ => Some(expr.at()),
    }
}

/// The place of the type of a result that is not `int`.
fn unbuilt_type(syn: &TypeSyn) -> Option<Place>
    ensures { result ≡ unbuilt_type (type_tree syn.now) }
{
    match &syn.core {
        Core::Scalar(Scalar::Int) if !syn.constant && !syn.reference => None,
        _ => Some(syn.at),
    }
}

/// The place of the first node of a statement whose form is not built: of any but a `return` of a value.
fn unbuilt_stmt(stmt: &Stmt) -> Option<Place>
    ensures { result ≡ unbuilt_stmt (stmt_tree stmt.now) }
{
    match stmt {
        Stmt::Return {
            value: Some(value),
            ..
        } => unbuilt_in(value),
        _ => Some(stmt.at()),
    }
}

/// The place of the first node whose form is not built in a block that stands here: a second statement is not built, nor
/// is a block without one.
fn unbuilt_stmts(at: Place, statements: &[Stmt]) -> Option<Place>
    ensures { result ≡ unbuilt_stmts at (stmts (map stmt_tree statements.now)) }
{
    match statements {
        [] => Some(at),
        [only] => unbuilt_stmt(only),
        [first, second, ..] => {
            match unbuilt_stmt(first) {
                Some(at) => Some(at),
                None => Some(second.at()),
            }
        }
    }
}

/// The place of the first node of a body whose form is not built.
fn unbuilt_body(body: &Stmt) -> Option<Place>
    ensures { result ≡ unbuilt_body (stmt_tree body.now) }
{
    match body {
        Stmt::Block { at, statements, .. } => unbuilt_stmts(*at, statements),
        _ => Some(body.at()),
    }
}

fn has_specifiers(words: Specifiers) -> bool
    ensures { result ≡ has_specifiers (specifiers words) }
{
    words.is_inline || words.is_static || words.is_constexpr
}

/// Whether a function has no specifiers, no parameters, no `const` and no clause behind `requires`.
fn is_built_head(function: &FunctionDecl) -> bool
    ensures { result ≡ is_built_head (function_decl function.now) }
{
    !has_specifiers(function.specifiers)
        && function.parameters.is_empty()
        && !function.is_const
        && function.trailing.is_none()
}

/// The place of the first node of a function whose form is not built.
fn unbuilt_function(function: &FunctionDecl) -> Option<Place>
    ensures { result ≡ unbuilt_function (function_decl function.now) }
{
    match &function.body {
        Some(body) if is_built_head(function) => {
            match unbuilt_type(&function.result) {
                Some(at) => Some(at),
                None => unbuilt_body(body),
            }
        }
        _ => Some(function.at),
    }
}

/// The place of the first node of a declaration whose form is not built.
fn unbuilt_decl(decl: &Decl) -> Option<Place>
    ensures { result ≡ unbuilt_decl (decl_tree decl.now) }
{
    match decl {
        Decl::Function(function) => unbuilt_function(function),
        _ => Some(decl.at()),
    }
}

/// What a unit defines, in order. Refuses as Unsupported at the first node whose form is not built, where there is one;
/// else for want of memory alone.
#[tactic(auto, unfolding(crate::specs::Forms::forms_unit))]
pub(crate) fn built_definitions<'t, 's>(
    alloc: Global,
    unit: &'t Unit<'s>,
) -> Result<Vec<Definition<'t, 's>>, Stop>
    ensures { Gives (λ fs. map definition_tree fs.items) result (forms_unit (unit_tree unit.now)) }
{
    let mut built = Vec::new(alloc);
    for decl in &unit.declarations {
        if let Some(at) = unbuilt_decl(decl) {
            return Err(unsupported(alloc, at));
        }
        if let Some(definition) = definition_of(decl) {
            built.push(definition)?;
        }
    }
    Ok(built)
}

//! Statements at the end of a text.

ghost use Rattle.std.specs.Prelude.{◌≡◌, ◌++◌, OnOk, IfOk, string_bytes, codes, map, option_map, suc};
ghost use Rattle.cx_plain_language.specs.Tree.{stmts};
ghost use Rattle.cx_plain_language.specs.View.{unit_view, fn_view, expr_view, stmt_view};
ghost use Rattle.cx_plain_language.specs.Text.{indent, local_text, step_text, return_text, expr_text, stmt_text, stmts_text};

use crate::expression::Expr;
use crate::expressions::put_expr;
use crate::names::put_declared;
use crate::statement::Stmt;
use crate::unit::{PlainFunction, PlainUnit};
use std::alloc::AllocError;

/// Two spaces for each open brace.
fn put_indent(out: &mut String, depth: usize) -> Result<(), AllocError>
    ensures { OnOk result (string_bytes out.new ≡ string_bytes out.old ++ indent depth) }
{
    for _brace in 0..depth {
        out.push_str("  ")?;
    }
    Ok(())
}

/// A text on a line of its own, indented.
fn put_line(out: &mut String, depth: usize, text: &str) -> Result<(), AllocError>
    ensures { OnOk result (string_bytes out.new ≡ string_bytes out.old ++ indent depth ++ text.now) }
{
    put_indent(out, depth)?;
    out.push_str(text)
}

/// The local of a number as it is declared.
#[tactic(auto, unfolding(crate::specs::Text::local_text))]
fn put_variable(
    out: &mut String,
    unit: &PlainUnit,
    function: &PlainFunction,
    number: u32,
) -> Result<(), AllocError>
    ensures { OnOk result (string_bytes out.new ≡ string_bytes out.old ++ local_text (unit_view unit.now) (fn_view function.now) number) }
{
    match function.variable(number) {
        Some(found) => put_declared(out, unit, number as usize, found),
        None => Ok(()),
    }
}

/// The step of a loop behind a space, where there is one.
fn put_step(
    out: &mut String,
    unit: &PlainUnit,
    function: &PlainFunction,
    step: &Option<Expr<u32, u32, u32>>,
) -> Result<(), AllocError>
    ensures { OnOk result (string_bytes out.new ≡ string_bytes out.old ++ step_text (unit_view unit.now) (fn_view function.now) (option_map expr_view step.now)) }
{
    match step {
        Some(expr) => {
            out.push_str(" ")?;
            put_expr(out, unit, function, expr)
        }
        None => Ok(()),
    }
}

/// A return with a value or with none.
fn put_return(
    out: &mut String,
    unit: &PlainUnit,
    function: &PlainFunction,
    value: &Option<Expr<u32, u32, u32>>,
) -> Result<(), AllocError>
    ensures { OnOk result (string_bytes out.new ≡ string_bytes out.old ++ return_text (unit_view unit.now) (fn_view function.now) (option_map expr_view value.now)) }
{
    match value {
        Some(expr) => {
            out.push_str("return ")?;
            put_expr(out, unit, function, expr)?;
            out.push_str(";\n")
        }
        None => out.push_str("return;\n"),
    }
}

/// Indented, a text, an expression and another text.
fn put_headed(
    out: &mut String,
    unit: &PlainUnit,
    function: &PlainFunction,
    depth: usize,
    before: &str,
    expr: &Expr<u32, u32, u32>,
    behind: &str,
) -> Result<(), AllocError>
    ensures { OnOk result (string_bytes out.new ≡ string_bytes out.old ++ indent depth ++ before.now ++ expr_text (unit_view unit.now) (fn_view function.now) (expr_view expr.now) ++ behind.now) }
{
    put_line(out, depth, before)?;
    put_expr(out, unit, function, expr)?;
    out.push_str(behind)
}

/// The declaration of a local with its initialiser.
fn put_declaration(
    out: &mut String,
    unit: &PlainUnit,
    function: &PlainFunction,
    depth: usize,
    number: u32,
    value: &Expr<u32, u32, u32>,
) -> Result<(), AllocError>
    ensures { OnOk result (string_bytes out.new ≡ string_bytes out.old ++ indent depth ++ local_text (unit_view unit.now) (fn_view function.now) number ++ codes " = " ++ expr_text (unit_view unit.now) (fn_view function.now) (expr_view value.now) ++ codes ";\n") }
{
    put_indent(out, depth)?;
    put_variable(out, unit, function, number)?;
    out.push_str(" = ")?;
    put_expr(out, unit, function, value)?;
    out.push_str(";\n")
}

/// The number of open braces with one more. There is no memory for so many that it has no number.
fn deeper(depth: usize) -> Result<usize, AllocError>
    ensures { IfOk result (λ more. more ≡ suc depth) }
{
    match depth.checked_add(1) {
        Some(more) => Ok(more),
        None => Err(AllocError),
    }
}

/// Statements that stand in braces, and what stands behind the last of them.
#[cycle(bodies)]
fn put_body(
    out: &mut String,
    unit: &PlainUnit,
    function: &PlainFunction,
    depth: usize,
    body: &[Stmt<u32, (), u32, u32>],
    behind: &str,
) -> Result<(), AllocError>
    ensures { OnOk result (string_bytes out.new ≡ string_bytes out.old ++ stmts_text (unit_view unit.now) (fn_view function.now) (suc depth) (stmts (map stmt_view body.now)) ++ indent depth ++ behind.now) }
{
    put_stmts(out, unit, function, deeper(depth)?, body)?;
    put_line(out, depth, behind)
}

/// Statements, one behind the other.
#[cycle(bodies)]
pub fn put_stmts(
    out: &mut String,
    unit: &PlainUnit,
    function: &PlainFunction,
    depth: usize,
    body: &[Stmt<u32, (), u32, u32>],
) -> Result<(), AllocError>
    ensures { OnOk result (string_bytes out.new ≡ string_bytes out.old ++ stmts_text (unit_view unit.now) (fn_view function.now) depth (stmts (map stmt_view body.now))) }
{
    for stmt in body {
        put_stmt(out, unit, function, depth, stmt)?;
    }
    Ok(())
}

/// The head of a loop.
fn put_loop_head(
    out: &mut String,
    unit: &PlainUnit,
    function: &PlainFunction,
    depth: usize,
    condition: &Expr<u32, u32, u32>,
    step: &Option<Expr<u32, u32, u32>>,
) -> Result<(), AllocError>
    ensures { OnOk result (string_bytes out.new ≡ string_bytes out.old ++ indent depth ++ codes "for (; " ++ expr_text (unit_view unit.now) (fn_view function.now) (expr_view condition.now) ++ codes ";" ++ step_text (unit_view unit.now) (fn_view function.now) (option_map expr_view step.now) ++ codes ") {\n") }
{
    put_headed(out, unit, function, depth, "for (; ", condition, ";")?;
    put_step(out, unit, function, step)?;
    out.push_str(") {\n")
}

/// A statement at a number of open braces.
#[cycle(bodies)]
#[tactic(auto, unfolding(crate::specs::Text::stmt_text))]
fn put_stmt(
    out: &mut String,
    unit: &PlainUnit,
    function: &PlainFunction,
    depth: usize,
    stmt: &Stmt<u32, (), u32, u32>,
) -> Result<(), AllocError>
    ensures { OnOk result (string_bytes out.new ≡ string_bytes out.old ++ stmt_text (unit_view unit.now) (fn_view function.now) depth (stmt_view stmt.now)) }
{
    match stmt {
        Stmt::Variable(number, value) => {
            put_declaration(out, unit, function, depth, *number, value)
        }
        Stmt::Expression(expr) => put_headed(out, unit, function, depth, "", expr, ";\n"),
        Stmt::If(condition, body) => {
            put_headed(out, unit, function, depth, "if (", condition, ") {\n")?;
            put_body(out, unit, function, depth, body, "}\n")
        }
        Stmt::IfElse(condition, first, second) => {
            put_headed(out, unit, function, depth, "if (", condition, ") {\n")?;
            put_body(out, unit, function, depth, first, "} else {\n")?;
            put_body(out, unit, function, depth, second, "}\n")
        }
        Stmt::Loop(_, condition, step, body) => {
            put_loop_head(out, unit, function, depth, condition, step)?;
            put_body(out, unit, function, depth, body, "}\n")
        }
        Stmt::Block(body) => {
            put_line(out, depth, "{\n")?;
            put_body(out, unit, function, depth, body, "}\n")
        }
        Stmt::Break => put_line(out, depth, "break;\n"),
        Stmt::Continue => put_line(out, depth, "continue;\n"),
        Stmt::Return(value) => {
            put_indent(out, depth)?;
            put_return(out, unit, function, value)
        }
    }
}

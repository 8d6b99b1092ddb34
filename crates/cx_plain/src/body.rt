//! What stands in a function, at the end of a text.

ghost use Rattle.std.specs.Prelude.{◌≡◌, ◌++◌, ◌<◌, OnOk, string_bytes, codes, length, map};
ghost use Rattle.cx_plain.specs.PlainTree.{expr_view, stmt_view, function_view};
ghost use Rattle.cx_plain.specs.PlainText.{expr_text, stmt_text, function_text, function_name, name_in};
ghost use Rattle.cx_plain.specs.PlainTyping.{IsTypedExpr, IsTypedStmt, IsTypedFunction};

use crate::operators::{binary_text, unary_text};
use crate::pieces::{put_constant, put_name};
use crate::tree::{Expr, Function, Stmt};
use std::alloc::AllocError;

/// A call of the function of a number.
fn put_call(out: &mut String, functions: &[Function], callee: u32) -> Result<(), AllocError>
    requires { callee < length functions.now }
    ensures { OnOk result (string_bytes out.new ≡ string_bytes out.old ++ function_name callee (name_in (map function_view functions.now) callee) ++ codes "()") }
{
    let number = callee as usize;
    put_name(out, number, functions[number].name.as_str())?;
    out.push_str("()")
}

/// An expression of a function.
#[tactic(auto, unfolding(crate::specs::PlainText::expr_text))]
fn put_expr(out: &mut String, functions: &[Function], expr: &Expr) -> Result<(), AllocError>
    requires { IsTypedExpr (length functions.now) (expr_view expr.now) }
    ensures { OnOk result (string_bytes out.new ≡ string_bytes out.old ++ expr_text (map function_view functions.now) (expr_view expr.now)) }
{
    match expr {
        Expr::Constant(value) => put_constant(out, *value),
        Expr::Call(callee) => put_call(out, functions, *callee),
        Expr::Unary(operator, operand) => {
            out.push_str("(")?;
            out.push_str(unary_text(*operator))?;
            put_expr(out, functions, operand)?;
            out.push_str(")")
        }
        Expr::Binary(operator, left, right) => {
            out.push_str("(")?;
            put_expr(out, functions, left)?;
            out.push_str(" ")?;
            out.push_str(binary_text(*operator))?;
            out.push_str(" ")?;
            put_expr(out, functions, right)?;
            out.push_str(")")
        }
    }
}

/// A statement of a function.
#[tactic(auto, unfolding(crate::specs::PlainText::stmt_text))]
fn put_stmt(out: &mut String, functions: &[Function], stmt: &Stmt) -> Result<(), AllocError>
    requires { IsTypedStmt (length functions.now) (stmt_view stmt.now) }
    ensures { OnOk result (string_bytes out.new ≡ string_bytes out.old ++ stmt_text (map function_view functions.now) (stmt_view stmt.now)) }
{
    let Stmt::Return(value) = stmt;
    out.push_str("  return ")?;
    put_expr(out, functions, value)?;
    out.push_str(";\n")?;
    Ok(())
}

/// The function of a number with its body.
#[tactic(auto, unfolding(crate::specs::PlainText::function_text))]
pub fn put_function(
    out: &mut String,
    functions: &[Function],
    number: usize,
    function: &Function,
) -> Result<(), AllocError>
    requires { IsTypedFunction (length functions.now) (function_view function.now) }
    ensures { OnOk result (string_bytes out.new ≡ string_bytes out.old ++ function_text (map function_view functions.now) number (function_view function.now)) }
{
    out.push_str("int ")?;
    put_name(out, number, function.name.as_str())?;
    out.push_str("() {\n")?;
    put_stmt(out, functions, &function.body)?;
    out.push_str("}\n")?;
    Ok(())
}

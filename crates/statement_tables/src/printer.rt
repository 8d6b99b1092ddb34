//! Statements in short.

use cx_base::Scalar;
use cx_statements::{Assertion, Auto, ForInit, Init, Stmt, Variable, WrittenType};
use cx_tree::{Core, Expr, TypeSyn};
use std::alloc::AllocError;

fn scalar_text(scalar: Scalar) -> &'static str {
    match scalar {
        Scalar::Bool => "bool",
        Scalar::Int => "int",
        Scalar::Unsigned => "unsigned",
        Scalar::LongLong => "long long",
        Scalar::ULongLong => "unsigned long long",
    }
}

/// A type; of template arguments their number, of `typename` and `decltype` the word.
fn write_type(out: &mut String, syn: &TypeSyn<'_>) -> Result<(), AllocError> {
    if syn.constant {
        out.push_str("const ")?;
    }
    match &syn.core {
        Core::Scalar(scalar) => out.push_str(scalar_text(*scalar))?,
        Core::Void => out.push_str("void")?,
        Core::TypeName(name) => out.push_str(name)?,
        Core::Class(name, arguments) => write!(out, "{name}<{}>", arguments.len())?,
        Core::MemberType(..) => out.push_str("typename")?,
        Core::Decltype(_) => out.push_str("decltype")?,
    }
    if syn.reference {
        out.push_str("&")?;
    }
    Ok(())
}

/// What has operands.
#[cycle(printing)]
fn write_operation(out: &mut String, expr: &Expr<'_>) -> Result<(), AllocError> {
    match expr {
        Expr::Call {
            callee,
            arguments,
            ..
        } => {
            write_expr(out, callee)?;
            write!(out, "({})", arguments.len())
        }
        Expr::Member { object, name, .. } => {
            write_expr(out, object)?;
            write!(out, ".{name}")
        }
        Expr::Unary { operand, .. } => {
            out.push_str("(u ")?;
            write_expr(out, operand)?;
            out.push_str(")")
        }
        Expr::Postfix { operand, .. } => {
            out.push_str("(")?;
            write_expr(out, operand)?;
            out.push_str(" p)")
        }
        Expr::Binary { left, right, .. } => {
            out.push_str("(")?;
            write_expr(out, left)?;
            out.push_str(" ~ ")?;
            write_expr(out, right)?;
            out.push_str(")")
        }
        Expr::Assignment { target, value, .. } => {
            out.push_str("(")?;
            write_expr(out, target)?;
            out.push_str(" = ")?;
            write_expr(out, value)?;
            out.push_str(")")
        }
        _ => out.push_str("?"),
    }
}

/// An expression in short: of template arguments, arguments and items their number.
#[cycle(printing)]
fn write_expr(out: &mut String, expr: &Expr<'_>) -> Result<(), AllocError> {
    match expr {
        Expr::Int { value, .. } => write!(out, "{value}"),
        Expr::Bool { value, .. } => write!(out, "{value}"),
        Expr::Name { name, .. } => out.push_str(name),
        Expr::Template {
            name,
            arguments,
            ..
        } => write!(out, "{name}<{}>", arguments.len()),
        Expr::Qualified { head, names, .. } => {
            write_type(out, head)?;
            write!(out, "::{}", names.len())
        }
        Expr::List { of, items, .. } => {
            write_type(out, of)?;
            write!(out, "{{{}}}", items.len())
        }
        Expr::Group { inner, .. } => {
            out.push_str("[")?;
            write_expr(out, inner)?;
            out.push_str("]")
        }
        _ => write_operation(out, expr),
    }
}

fn write_maybe(out: &mut String, expr: &Option<Expr<'_>>) -> Result<(), AllocError> {
    match expr {
        Some(expr) => write_expr(out, expr),
        None => Ok(()),
    }
}

fn write_auto(out: &mut String, auto: &Auto<'_>) -> Result<(), AllocError> {
    if auto.constant {
        out.push_str("const ")?;
    }
    if let Some(constraint) = &auto.constraint {
        out.push_str(constraint.name)?;
        if !constraint.arguments.is_empty() {
            write!(out, "<{}>", constraint.arguments.len())?;
        }
        out.push_str(" ")?;
    }
    out.push_str("auto")?;
    if auto.reference {
        out.push_str("&")?;
    }
    Ok(())
}

fn write_variable(out: &mut String, variable: &Variable<'_>) -> Result<(), AllocError> {
    if variable.is_constexpr {
        out.push_str("constexpr ")?;
    }
    match &variable.written {
        WrittenType::Type(syn) => write_type(out, syn)?,
        WrittenType::Auto(auto) => write_auto(out, auto)?,
    }
    write!(out, " {}", variable.name)?;
    match &variable.init {
        Init::Value(value) => {
            out.push_str(" = ")?;
            write_expr(out, value)
        }
        Init::List { items, .. } => write!(out, "{{{}}}", items.len()),
    }
}

fn write_init(out: &mut String, init: &ForInit<'_>) -> Result<(), AllocError> {
    match init {
        ForInit::Nothing => Ok(()),
        ForInit::Variable(variable) => write_variable(out, variable),
        ForInit::Expression(expr) => write_expr(out, expr),
    }
}

fn write_assertion(out: &mut String, assertion: &Assertion<'_>) -> Result<(), AllocError> {
    out.push_str("assert(")?;
    write_expr(out, &assertion.condition)?;
    if let Some(message) = assertion.message {
        write!(out, ", {message}")?;
    }
    out.push_str(");")
}

/// A statement that is a part of another one, in brackets.
#[cycle(stmts)]
fn write_part(out: &mut String, before: &str, stmt: &Stmt<'_>) -> Result<(), AllocError> {
    out.push_str(before)?;
    out.push_str("[")?;
    write_stmt(out, stmt)?;
    out.push_str("]")
}

#[cycle(stmts)]
fn write_block(out: &mut String, statements: &[Stmt<'_>]) -> Result<(), AllocError> {
    out.push_str("{")?;
    let mut is_first = true;
    for stmt in statements {
        if !is_first {
            out.push_str(" ")?;
        }
        write_stmt(out, stmt)?;
        is_first = false;
    }
    out.push_str("}")
}

/// A statement that holds others.
#[cycle(stmts)]
fn write_holder(out: &mut String, stmt: &Stmt<'_>) -> Result<(), AllocError> {
    match stmt {
        Stmt::If {
            is_constexpr,
            condition,
            then,
            otherwise,
            ..
        } => {
            out.push_str(if *is_constexpr {
                "if constexpr ("
            } else {
                "if ("
            })?;
            write_expr(out, condition)?;
            write_part(out, ") ", then)?;
            match otherwise {
                Some(otherwise) => write_part(out, " else ", otherwise),
                None => Ok(()),
            }
        }
        Stmt::While {
            condition,
            body,
            ..
        } => {
            out.push_str("while (")?;
            write_expr(out, condition)?;
            write_part(out, ") ", body)
        }
        Stmt::For {
            init,
            condition,
            step,
            body,
            ..
        } => {
            out.push_str("for (")?;
            write_init(out, init)?;
            out.push_str("; ")?;
            write_maybe(out, condition)?;
            out.push_str("; ")?;
            write_maybe(out, step)?;
            write_part(out, ") ", body)
        }
        _ => out.push_str("?"),
    }
}

/// A statement in short; one that is a part of another in brackets.
#[cycle(stmts)]
pub(crate) fn write_stmt(out: &mut String, stmt: &Stmt<'_>) -> Result<(), AllocError> {
    match stmt {
        Stmt::Empty { .. } => out.push_str(";"),
        Stmt::Block { statements, .. } => write_block(out, statements.as_slice()),
        Stmt::StaticAssert(assertion) => write_assertion(out, assertion),
        Stmt::Break { .. } => out.push_str("break;"),
        Stmt::Continue { .. } => out.push_str("continue;"),
        Stmt::Return { value, .. } => {
            out.push_str("return ")?;
            write_maybe(out, value)?;
            out.push_str(";")
        }
        Stmt::Variable(variable) => {
            write_variable(out, variable)?;
            out.push_str(";")
        }
        Stmt::Expression { expr, .. } => {
            write_expr(out, expr)?;
            out.push_str(";")
        }
        _ => write_holder(out, stmt),
    }
}

//! Trees in short: each operand in parentheses, parentheses of the text in brackets.

use cx_base::Scalar;
use cx_tree::{
    AssignmentOperator, BinaryOperator, Core, Expr, PostfixOperator, TemplateArgument, TypeSyn,
    UnaryOperator,
};
use std::alloc::AllocError;

fn scalar_text(scalar: Scalar) -> &'static str {
    match scalar {
        Scalar::Bool => "bool",
        Scalar::Int => "int",
        Scalar::Unsigned => "unsigned",
        Scalar::LongLong => "long long",
        Scalar::ULongLong => "unsigned long long",
    }
}

fn suffix(scalar: Scalar) -> &'static str {
    match scalar {
        Scalar::Bool => "bool",
        Scalar::Int => "",
        Scalar::Unsigned => "u",
        Scalar::LongLong => "ll",
        Scalar::ULongLong => "ull",
    }
}

fn unary_text(operator: UnaryOperator) -> &'static str {
    match operator {
        UnaryOperator::Plus => "+",
        UnaryOperator::Minus => "-",
        UnaryOperator::Not => "!",
        UnaryOperator::Complement => "~",
        UnaryOperator::Increment => "++",
        UnaryOperator::Decrement => "--",
    }
}

fn postfix_text(operator: PostfixOperator) -> &'static str {
    match operator {
        PostfixOperator::Increment => "++",
        PostfixOperator::Decrement => "--",
    }
}

fn binary_text(operator: BinaryOperator) -> &'static str {
    match operator {
        BinaryOperator::Multiply => "*",
        BinaryOperator::Divide => "/",
        BinaryOperator::Remainder => "%",
        BinaryOperator::Add => "+",
        BinaryOperator::Subtract => "-",
        BinaryOperator::ShiftLeft => "<<",
        BinaryOperator::ShiftRight => ">>",
        BinaryOperator::Less => "<",
        BinaryOperator::LessEqual => "<=",
        BinaryOperator::Greater => ">",
        BinaryOperator::GreaterEqual => ">=",
        BinaryOperator::Equal => "==",
        BinaryOperator::NotEqual => "!=",
        BinaryOperator::BitAnd => "&",
        BinaryOperator::BitXor => "^",
        BinaryOperator::BitOr => "|",
        BinaryOperator::And => "&&",
        BinaryOperator::Or => "||",
    }
}

fn assignment_text(operator: AssignmentOperator) -> &'static str {
    match operator {
        AssignmentOperator::Assign => "=",
        AssignmentOperator::Add => "+=",
        AssignmentOperator::Subtract => "-=",
        AssignmentOperator::Multiply => "*=",
        AssignmentOperator::Divide => "/=",
        AssignmentOperator::Remainder => "%=",
        AssignmentOperator::BitXor => "^=",
        AssignmentOperator::BitAnd => "&=",
        AssignmentOperator::BitOr => "|=",
        AssignmentOperator::ShiftLeft => "<<=",
        AssignmentOperator::ShiftRight => ">>=",
    }
}

fn write_names(out: &mut String, names: &[&str]) -> Result<(), AllocError> {
    for name in names {
        write!(out, "::{name}")?;
    }
    Ok(())
}

#[cycle(printing)]
fn write_exprs(out: &mut String, exprs: &[Expr<'_>]) -> Result<(), AllocError> {
    let mut is_first = true;
    for expr in exprs {
        if !is_first {
            out.push_str(", ")?;
        }
        write_expr(out, expr)?;
        is_first = false;
    }
    Ok(())
}

/// Template arguments; a type has the word `type` before it.
#[cycle(printing)]
fn write_arguments(out: &mut String, arguments: &[TemplateArgument<'_>]) -> Result<(), AllocError> {
    let mut is_first = true;
    for argument in arguments {
        out.push_str(if is_first { "<" } else { ", " })?;
        match argument {
            TemplateArgument::Type(syn) => {
                out.push_str("type ")?;
                write_type(out, syn)?;
            }
            TemplateArgument::Value(expr) => write_expr(out, expr)?,
        }
        is_first = false;
    }
    out.push_str(">")
}

#[cycle(printing)]
fn write_core(out: &mut String, core: &Core<'_>) -> Result<(), AllocError> {
    match core {
        Core::Scalar(scalar) => out.push_str(scalar_text(*scalar)),
        Core::Void => out.push_str("void"),
        Core::TypeName(name) => out.push_str(name),
        Core::Class(name, arguments) => {
            out.push_str(name)?;
            write_arguments(out, arguments.as_slice())
        }
        Core::MemberType(head, names) => {
            out.push_str("typename ")?;
            write_type(out, head)?;
            write_names(out, names.as_slice())
        }
        Core::Decltype(expr) => {
            out.push_str("decltype(")?;
            write_expr(out, expr)?;
            out.push_str(")")
        }
    }
}

#[cycle(printing)]
fn write_type(out: &mut String, syn: &TypeSyn<'_>) -> Result<(), AllocError> {
    if syn.constant {
        out.push_str("const ")?;
    }
    write_core(out, &syn.core)?;
    if syn.reference {
        out.push_str("&")?;
    }
    Ok(())
}

/// Between two texts.
#[cycle(printing)]
fn write_within(
    out: &mut String,
    before: &str,
    expr: &Expr<'_>,
    behind: &str,
) -> Result<(), AllocError> {
    out.push_str(before)?;
    write_expr(out, expr)?;
    out.push_str(behind)
}

/// What begins with a type or has one within.
#[cycle(printing)]
fn write_typed(out: &mut String, expr: &Expr<'_>) -> Result<(), AllocError> {
    match expr {
        Expr::Qualified { head, names, .. } => {
            write_type(out, head)?;
            write_names(out, names.as_slice())
        }
        Expr::List { of, items, .. } => {
            write_type(out, of)?;
            out.push_str("{")?;
            write_exprs(out, items.as_slice())?;
            out.push_str("}")
        }
        Expr::StaticCast { to, operand, .. } => {
            out.push_str("static_cast<")?;
            write_type(out, to)?;
            write_within(out, ">(", operand, ")")
        }
        Expr::IsSame { left, right, .. } => {
            out.push_str("__is_same(")?;
            write_type(out, left)?;
            out.push_str(", ")?;
            write_type(out, right)?;
            out.push_str(")")
        }
        _ => out.push_str("?"),
    }
}

/// What has operands.
#[cycle(printing)]
fn write_operation(out: &mut String, expr: &Expr<'_>) -> Result<(), AllocError> {
    match expr {
        Expr::Call {
            callee,
            arguments,
            ..
        } => {
            write_within(out, "(", callee, "(")?;
            write_exprs(out, arguments.as_slice())?;
            out.push_str("))")
        }
        Expr::Member { object, name, .. } => {
            write_within(out, "(", object, ".")?;
            write!(out, "{name})")
        }
        Expr::Postfix {
            operator,
            operand,
            ..
        } => {
            write_within(out, "(", operand, postfix_text(*operator))?;
            out.push_str(")")
        }
        Expr::Unary {
            operator,
            operand,
            ..
        } => {
            write!(out, "({}", unary_text(*operator))?;
            write_within(out, "", operand, ")")
        }
        Expr::Binary {
            operator,
            left,
            right,
            ..
        } => {
            write_within(out, "(", left, " ")?;
            out.push_str(binary_text(*operator))?;
            write_within(out, " ", right, ")")
        }
        Expr::Conditional {
            condition,
            then,
            otherwise,
            ..
        } => {
            write_within(out, "(", condition, " ? ")?;
            write_within(out, "", then, " : ")?;
            write_within(out, "", otherwise, ")")
        }
        Expr::Assignment {
            operator,
            target,
            value,
            ..
        } => {
            write_within(out, "(", target, " ")?;
            out.push_str(assignment_text(*operator))?;
            write_within(out, " ", value, ")")
        }
        _ => write_typed(out, expr),
    }
}

/// An expression: operands in parentheses, parentheses of the text as square brackets.
#[cycle(printing)]
fn write_expr(out: &mut String, expr: &Expr<'_>) -> Result<(), AllocError> {
    match expr {
        Expr::Int { scalar, value, .. } => write!(out, "{value}{}", suffix(*scalar)),
        Expr::Bool { value, .. } => write!(out, "{value}"),
        Expr::Name { name, .. } => out.push_str(name),
        Expr::Template {
            name,
            arguments,
            ..
        } => {
            out.push_str(name)?;
            write_arguments(out, arguments.as_slice())
        }
        Expr::Group { inner, .. } => write_within(out, "[", inner, "]"),
        Expr::Out { operand, .. } => write_within(out, "__out(", operand, ")"),
        _ => write_operation(out, expr),
    }
}

/// An expression or a type.
pub(crate) fn write_tree(out: &mut String, tree: &TemplateArgument<'_>) -> Result<(), AllocError> {
    match tree {
        TemplateArgument::Type(syn) => write_type(out, syn),
        TemplateArgument::Value(expr) => write_expr(out, expr),
    }
}

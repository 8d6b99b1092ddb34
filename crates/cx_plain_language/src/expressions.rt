//! Expressions at the end of a text.

ghost use Rattle.std.specs.Prelude.{◌≡◌, ◌++◌, OnOk, string_bytes, codes, map};
ghost use Rattle.cx_plain_language.specs.Tree.{exprs};
ghost use Rattle.cx_plain_language.specs.View.{unit_view, fn_view, expr_view};
ghost use Rattle.cx_plain_language.specs.Text.{local_mention, field_mention, joined, comma_before, unary_text, update_text, binary_text, comparison_text, expr_text, exprs_texts};

use crate::expression::Expr;
use crate::names::{put_callee, put_constant, put_global, put_named, put_struct, scalar_word};
use crate::unit::{PlainFunction, PlainUnit};
use cx_machine::{BinaryOperator, Comparison, UnaryOperator, Update};
use std::alloc::AllocError;

/// The text of an operator on one value.
#[tactic(auto, unfolding(crate::specs::Text::unary_text))]
fn unary_word(operator: UnaryOperator) -> &'static str
    ensures { result.now ≡ unary_text operator }
{
    match operator {
        UnaryOperator::Minus => "-",
        UnaryOperator::Complement => "~",
        UnaryOperator::Not => "!",
    }
}

/// The text of `++` or `--`.
#[tactic(auto, unfolding(crate::specs::Text::update_text))]
fn update_word(operator: Update) -> &'static str
    ensures { result.now ≡ update_text operator }
{
    match operator {
        Update::Increment => "++",
        Update::Decrement => "--",
    }
}

/// The text of an operator on two values.
#[tactic(auto, unfolding(crate::specs::Text::binary_text))]
fn binary_word(operator: BinaryOperator) -> &'static str
    ensures { result.now ≡ binary_text operator }
{
    match operator {
        BinaryOperator::Multiply => "*",
        BinaryOperator::Divide => "/",
        BinaryOperator::Remainder => "%",
        BinaryOperator::Add => "+",
        BinaryOperator::Subtract => "-",
        BinaryOperator::ShiftLeft => "<<",
        BinaryOperator::ShiftRight => ">>",
        BinaryOperator::BitAnd => "&",
        BinaryOperator::BitXor => "^",
        BinaryOperator::BitOr => "|",
    }
}

/// The text of an operator on two values before the `=` of an assignment.
#[tactic(auto, unfolding(crate::specs::Text::binary_text))]
fn compound_word(operator: BinaryOperator) -> &'static str
    ensures { result.now ≡ binary_text operator ++ codes "=" }
{
    match operator {
        BinaryOperator::Multiply => "*=",
        BinaryOperator::Divide => "/=",
        BinaryOperator::Remainder => "%=",
        BinaryOperator::Add => "+=",
        BinaryOperator::Subtract => "-=",
        BinaryOperator::ShiftLeft => "<<=",
        BinaryOperator::ShiftRight => ">>=",
        BinaryOperator::BitAnd => "&=",
        BinaryOperator::BitXor => "^=",
        BinaryOperator::BitOr => "|=",
    }
}

/// The text of a comparison.
#[tactic(auto, unfolding(crate::specs::Text::comparison_text))]
fn comparison_word(operator: Comparison) -> &'static str
    ensures { result.now ≡ comparison_text operator }
{
    match operator {
        Comparison::Less => "<",
        Comparison::LessEqual => "<=",
        Comparison::Greater => ">",
        Comparison::GreaterEqual => ">=",
        Comparison::Equal => "==",
        Comparison::NotEqual => "!=",
    }
}

/// The name of the local of a number.
#[tactic(auto, unfolding(crate::specs::Text::local_mention))]
fn put_local(out: &mut String, function: &PlainFunction, number: u32) -> Result<(), AllocError>
    ensures { OnOk result (string_bytes out.new ≡ string_bytes out.old ++ local_mention (fn_view function.now) number) }
{
    match function.variable(number) {
        Some(found) => put_named(out, "v", number as usize, found.name.as_str()),
        None => put_named(out, "v", number as usize, ""),
    }
}

/// The name of the field of a number in the struct of a number.
#[tactic(auto, unfolding(crate::specs::Text::field_mention))]
fn put_field(out: &mut String, unit: &PlainUnit, of: u32, number: u32) -> Result<(), AllocError>
    ensures { OnOk result (string_bytes out.new ≡ string_bytes out.old ++ field_mention (unit_view unit.now) of number) }
{
    match unit.structs.as_slice().get(of as usize) {
        Some(found) => match found.fields.as_slice().get(number as usize) {
            Some(field) => put_named(out, "f", number as usize, field.name.as_str()),
            None => put_named(out, "f", number as usize, ""),
        },
        None => put_named(out, "f", number as usize, ""),
    }
}

/// An expression between two texts.
#[cycle(printing)]
fn put_around(
    out: &mut String,
    unit: &PlainUnit,
    function: &PlainFunction,
    before: &str,
    expr: &Expr<u32, u32, u32>,
    behind: &str,
) -> Result<(), AllocError>
    ensures { OnOk result (string_bytes out.new ≡ string_bytes out.old ++ before.now ++ expr_text (unit_view unit.now) (fn_view function.now) (expr_view expr.now) ++ behind.now) }
{
    out.push_str(before)?;
    put_expr(out, unit, function, expr)?;
    out.push_str(behind)
}

/// A left operand behind a parenthesis, and an operator.
#[cycle(printing)]
fn put_left(
    out: &mut String,
    unit: &PlainUnit,
    function: &PlainFunction,
    left: &Expr<u32, u32, u32>,
    operator: &str,
) -> Result<(), AllocError>
    ensures { OnOk result (string_bytes out.new ≡ string_bytes out.old ++ codes "(" ++ expr_text (unit_view unit.now) (fn_view function.now) (expr_view left.now) ++ codes " " ++ operator.now) }
{
    put_around(out, unit, function, "(", left, " ")?;
    out.push_str(operator)
}

/// What stands before the item of a number in a list.
#[tactic(auto, unfolding(crate::specs::Text::comma_before))]
pub fn comma(index: usize) -> &'static str
    ensures { result.now ≡ comma_before index }
{
    if index == 0 { "" } else { ", " }
}

/// Expressions joined by commas.
#[cycle(printing)]
fn put_exprs(
    out: &mut String,
    unit: &PlainUnit,
    function: &PlainFunction,
    items: &[Expr<u32, u32, u32>],
) -> Result<(), AllocError>
    ensures { OnOk result (string_bytes out.new ≡ string_bytes out.old ++ joined (exprs_texts (unit_view unit.now) (fn_view function.now) (exprs (map expr_view items.now)))) }
{
    for (index, item) in items.iter().enumerate() {
        put_around(out, unit, function, comma(index), item, "")?;
    }
    Ok(())
}

/// An expression.
#[cycle(printing)]
#[tactic(auto, unfolding(crate::specs::Text::expr_text))]
pub fn put_expr(
    out: &mut String,
    unit: &PlainUnit,
    function: &PlainFunction,
    expr: &Expr<u32, u32, u32>,
) -> Result<(), AllocError>
    ensures { OnOk result (string_bytes out.new ≡ string_bytes out.old ++ expr_text (unit_view unit.now) (fn_view function.now) (expr_view expr.now)) }
{
    match expr {
        Expr::Constant(scalar, value) => put_constant(out, *scalar, *value),
        Expr::Local(number) => put_local(out, function, *number),
        Expr::Global(number) => put_global(out, unit, *number),
        Expr::Field(object, of, number) => {
            put_around(out, unit, function, "", object, ".")?;
            put_field(out, unit, *of, *number)
        }
        Expr::Call(callee, arguments) => {
            put_callee(out, unit, *callee)?;
            out.push_str("(")?;
            put_exprs(out, unit, function, arguments)?;
            out.push_str(")")
        }
        Expr::Print(operand) => put_around(out, unit, function, "__out(", operand, ")"),
        Expr::Struct(of, fields) => {
            put_struct(out, unit, *of)?;
            out.push_str("{")?;
            put_exprs(out, unit, function, fields)?;
            out.push_str("}")
        }
        Expr::Convert(to, operand) => {
            out.push_str(scalar_word(*to))?;
            put_around(out, unit, function, "(", operand, ")")
        }
        Expr::Discard(operand) => put_around(out, unit, function, "void(", operand, ")"),
        Expr::Temporary(operand) => put_around(out, unit, function, "tmp(", operand, ")"),
        Expr::Unary(operator, operand) => {
            out.push_str("(")?;
            put_around(out, unit, function, unary_word(*operator), operand, ")")
        }
        Expr::Prefix(operator, operand) => {
            out.push_str("(")?;
            put_around(out, unit, function, update_word(*operator), operand, ")")
        }
        Expr::Postfix(operator, operand) => {
            put_around(out, unit, function, "(", operand, update_word(*operator))?;
            out.push_str(")")
        }
        Expr::Binary(operator, left, right) => {
            put_left(out, unit, function, left, binary_word(*operator))?;
            put_around(out, unit, function, " ", right, ")")
        }
        Expr::Compare(operator, left, right) => {
            put_left(out, unit, function, left, comparison_word(*operator))?;
            put_around(out, unit, function, " ", right, ")")
        }
        Expr::And(left, right) => {
            put_left(out, unit, function, left, "&&")?;
            put_around(out, unit, function, " ", right, ")")
        }
        Expr::Or(left, right) => {
            put_left(out, unit, function, left, "||")?;
            put_around(out, unit, function, " ", right, ")")
        }
        Expr::Choice(condition, first, second) => {
            put_around(out, unit, function, "(", condition, " ? ")?;
            put_around(out, unit, function, "", first, " : ")?;
            put_around(out, unit, function, "", second, ")")
        }
        Expr::Assign(target, value) => {
            put_left(out, unit, function, target, "=")?;
            put_around(out, unit, function, " ", value, ")")
        }
        Expr::Compound(operator, target, value) => {
            put_left(out, unit, function, target, compound_word(*operator))?;
            put_around(out, unit, function, " ", value, ")")
        }
    }
}

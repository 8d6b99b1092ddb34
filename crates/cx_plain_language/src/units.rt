//! Structs, globals, prototypes and functions at the end of a text.

ghost use Rattle.std.specs.Prelude.{◌≡◌, ◌++◌, OnOk, string_bytes, codes, map};
ghost use Rattle.cx_plain_language.specs.Tree.{literals};
ghost use Rattle.cx_plain_language.specs.View.{unit_view, fn_view, struct_view, field_view, global_view, declared_view, literal_view};
ghost use Rattle.cx_plain_language.specs.Text.{named, joined, numbered, concatenated, declared_text, literal_text, literals_texts, field_text, struct_text, global_text, head_text, prototype_text, function_text};

use crate::expressions::comma;
use crate::names::{put_constant, put_declared, put_named, put_returns, put_struct, put_type};
use crate::statements::put_stmts;
use crate::types::Declared;
use crate::unit::{Field, Global, Literal, PlainFunction, PlainUnit, Struct};
use std::alloc::AllocError;

/// Constants joined by commas.
#[cycle(literals)]
fn put_literals(
    out: &mut String,
    unit: &PlainUnit,
    items: &[Literal<u32>],
) -> Result<(), AllocError>
    ensures { OnOk result (string_bytes out.new ≡ string_bytes out.old ++ joined (literals_texts (unit_view unit.now) (literals (map literal_view items.now)))) }
{
    for (index, item) in items.iter().enumerate() {
        out.push_str(comma(index))?;
        put_literal(out, unit, item)?;
    }
    Ok(())
}

/// A constant.
#[cycle(literals)]
#[tactic(auto, unfolding(crate::specs::Text::literal_text))]
fn put_literal(out: &mut String, unit: &PlainUnit, literal: &Literal<u32>) -> Result<(), AllocError>
    ensures { OnOk result (string_bytes out.new ≡ string_bytes out.old ++ literal_text (unit_view unit.now) (literal_view literal.now)) }
{
    match literal {
        Literal::Number(scalar, value) => put_constant(out, *scalar, *value),
        Literal::Struct(of, values) => {
            put_struct(out, unit, *of)?;
            out.push_str("{")?;
            put_literals(out, unit, values)?;
            out.push_str("}")
        }
    }
}

/// A field of a number.
#[tactic(auto, unfolding(crate::specs::Text::field_text))]
fn put_field(
    out: &mut String,
    unit: &PlainUnit,
    number: usize,
    field: &Field,
) -> Result<(), AllocError>
    ensures { OnOk result (string_bytes out.new ≡ string_bytes out.old ++ field_text (unit_view unit.now) number (field_view field.now)) }
{
    out.push_str("  ")?;
    put_type(out, unit, &field.of)?;
    out.push_str(" ")?;
    put_named(out, "f", number, field.name.as_str())?;
    out.push_str(";\n")
}

/// The fields of a struct.
fn put_fields(out: &mut String, unit: &PlainUnit, fields: &[Field]) -> Result<(), AllocError>
    ensures { OnOk result (string_bytes out.new ≡ string_bytes out.old ++ concatenated (numbered (field_text (unit_view unit.now)) 0 (map field_view fields.now))) }
{
    for (number, field) in fields.iter().enumerate() {
        put_field(out, unit, number, field)?;
    }
    Ok(())
}

/// The struct of a number.
#[tactic(auto, unfolding(crate::specs::Text::struct_text))]
fn put_struct_whole(
    out: &mut String,
    unit: &PlainUnit,
    number: usize,
    of: &Struct,
) -> Result<(), AllocError>
    ensures { OnOk result (string_bytes out.new ≡ string_bytes out.old ++ struct_text (unit_view unit.now) number (struct_view of.now)) }
{
    out.push_str("struct ")?;
    put_named(out, "s", number, of.name.as_str())?;
    out.push_str(" {\n")?;
    put_fields(out, unit, of.fields.as_slice())?;
    out.push_str("};\n")
}

/// The structs of a unit.
pub fn put_structs(out: &mut String, unit: &PlainUnit, structs: &[Struct]) -> Result<(), AllocError>
    ensures { OnOk result (string_bytes out.new ≡ string_bytes out.old ++ concatenated (numbered (struct_text (unit_view unit.now)) 0 (map struct_view structs.now))) }
{
    for (number, of) in structs.iter().enumerate() {
        put_struct_whole(out, unit, number, of)?;
    }
    Ok(())
}

/// The global of a number.
#[tactic(auto, unfolding(crate::specs::Text::global_text))]
fn put_global_whole(
    out: &mut String,
    unit: &PlainUnit,
    number: usize,
    global: &Global,
) -> Result<(), AllocError>
    ensures { OnOk result (string_bytes out.new ≡ string_bytes out.old ++ global_text (unit_view unit.now) number (global_view global.now)) }
{
    out.push_str("constexpr ")?;
    put_type(out, unit, &global.of)?;
    out.push_str(" ")?;
    put_named(out, "g", number, global.name.as_str())?;
    out.push_str(" = ")?;
    put_literal(out, unit, &global.value)?;
    out.push_str(";\n")
}

/// The globals of a unit.
pub fn put_globals(out: &mut String, unit: &PlainUnit, globals: &[Global]) -> Result<(), AllocError>
    ensures { OnOk result (string_bytes out.new ≡ string_bytes out.old ++ concatenated (numbered (global_text (unit_view unit.now)) 0 (map global_view globals.now))) }
{
    for (number, global) in globals.iter().enumerate() {
        put_global_whole(out, unit, number, global)?;
    }
    Ok(())
}

/// Parameters joined by commas.
fn put_parameters(
    out: &mut String,
    unit: &PlainUnit,
    parameters: &[Declared<u32>],
) -> Result<(), AllocError>
    ensures { OnOk result (string_bytes out.new ≡ string_bytes out.old ++ joined (numbered (declared_text (unit_view unit.now)) 0 (map declared_view parameters.now))) }
{
    for (number, parameter) in parameters.iter().enumerate() {
        out.push_str(comma(number))?;
        put_declared(out, unit, number, parameter)?;
    }
    Ok(())
}

/// The head of the function of a number.
#[tactic(auto, unfolding(crate::specs::Text::head_text))]
fn put_head(
    out: &mut String,
    unit: &PlainUnit,
    number: usize,
    function: &PlainFunction,
) -> Result<(), AllocError>
    ensures { OnOk result (string_bytes out.new ≡ string_bytes out.old ++ head_text (unit_view unit.now) number (fn_view function.now)) }
{
    put_returns(out, unit, &function.returns)?;
    out.push_str(" ")?;
    put_named(out, "p", number, function.name.as_str())?;
    out.push_str("(")?;
    put_parameters(out, unit, function.parameters.as_slice())?;
    out.push_str(")")
}

/// The prototypes of functions.
#[tactic(auto, unfolding(crate::specs::Text::prototype_text))]
pub fn put_prototypes(
    out: &mut String,
    unit: &PlainUnit,
    functions: &[PlainFunction],
) -> Result<(), AllocError>
    ensures { OnOk result (string_bytes out.new ≡ string_bytes out.old ++ concatenated (numbered (prototype_text (unit_view unit.now)) 0 (map fn_view functions.now))) }
{
    for (number, function) in functions.iter().enumerate() {
        put_prototype(out, unit, number, function)?;
    }
    Ok(())
}

/// The prototype of the function of a number.
#[tactic(auto, unfolding(crate::specs::Text::prototype_text))]
fn put_prototype(
    out: &mut String,
    unit: &PlainUnit,
    number: usize,
    function: &PlainFunction,
) -> Result<(), AllocError>
    ensures { OnOk result (string_bytes out.new ≡ string_bytes out.old ++ prototype_text (unit_view unit.now) number (fn_view function.now)) }
{
    put_head(out, unit, number, function)?;
    out.push_str(";\n")
}

/// The function of a number with its body.
#[tactic(auto, unfolding(crate::specs::Text::function_text))]
fn put_function(
    out: &mut String,
    unit: &PlainUnit,
    number: usize,
    function: &PlainFunction,
) -> Result<(), AllocError>
    ensures { OnOk result (string_bytes out.new ≡ string_bytes out.old ++ function_text (unit_view unit.now) number (fn_view function.now)) }
{
    put_head(out, unit, number, function)?;
    out.push_str(" {\n")?;
    put_stmts(out, unit, function, 1, function.body.as_slice())?;
    out.push_str("}\n")
}

/// The functions of a unit.
pub fn put_functions(
    out: &mut String,
    unit: &PlainUnit,
    functions: &[PlainFunction],
) -> Result<(), AllocError>
    ensures { OnOk result (string_bytes out.new ≡ string_bytes out.old ++ concatenated (numbered (function_text (unit_view unit.now)) 0 (map fn_view functions.now))) }
{
    for (number, function) in functions.iter().enumerate() {
        put_function(out, unit, number, function)?;
    }
    Ok(())
}

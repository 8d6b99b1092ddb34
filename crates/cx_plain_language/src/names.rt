//! Names with their numbers, types and constants at the end of a text.

ghost use Rattle.std.specs.Prelude.{◌≡◌, ◌++◌, OnOk, string_bytes, codes, decimal, map, ℤ};
ghost use Rattle.cx_plain_language.specs.Tree.{UnitTree};
ghost use Rattle.cx_plain_language.specs.View.{unit_view, fn_view, type_view, returns_view, declared_view};
ghost use Rattle.cx_plain_language.specs.Text.{named, struct_mention, global_mention, function_mention, local_mention, field_mention, scalar_text, type_text, passed_text, returns_text, declared_text, suffix, number_text, constant_text};

use crate::types::{Declared, Passing, Returns, Type};
use crate::unit::{PlainFunction, PlainUnit};
use cx_base::{Scalar, Text};
use std::alloc::AllocError;

/// A number in decimal.
fn put_number(out: &mut String, number: usize) -> Result<(), AllocError>
    ensures { OnOk result (string_bytes out.new ≡ string_bytes out.old ++ decimal number) }
{
    write!(out, "{number}")
}

/// A letter, a number, and a name behind `_`.
pub fn put_named(
    out: &mut String,
    letter: &str,
    number: usize,
    name: &str,
) -> Result<(), AllocError>
    ensures { OnOk result (string_bytes out.new ≡ string_bytes out.old ++ named letter.now number name.now) }
{
    out.push_str(letter)?;
    put_number(out, number)?;
    out.push_str("_")?;
    out.push_str(name)
}

/// The name of the struct of a number.
#[tactic(auto, unfolding(crate::specs::Text::struct_mention))]
pub fn put_struct(out: &mut String, unit: &PlainUnit, number: u32) -> Result<(), AllocError>
    ensures { OnOk result (string_bytes out.new ≡ string_bytes out.old ++ struct_mention (unit_view unit.now) number) }
{
    match unit.structs.as_slice().get(number as usize) {
        Some(found) => put_named(out, "s", number as usize, found.name.as_str()),
        None => put_named(out, "s", number as usize, ""),
    }
}

/// The name of the global of a number.
#[tactic(auto, unfolding(crate::specs::Text::global_mention))]
pub fn put_global(out: &mut String, unit: &PlainUnit, number: u32) -> Result<(), AllocError>
    ensures { OnOk result (string_bytes out.new ≡ string_bytes out.old ++ global_mention (unit_view unit.now) number) }
{
    match unit.globals.as_slice().get(number as usize) {
        Some(found) => put_named(out, "g", number as usize, found.name.as_str()),
        None => put_named(out, "g", number as usize, ""),
    }
}

/// The name of the function of a number.
#[tactic(auto, unfolding(crate::specs::Text::function_mention))]
pub fn put_callee(out: &mut String, unit: &PlainUnit, number: u32) -> Result<(), AllocError>
    ensures { OnOk result (string_bytes out.new ≡ string_bytes out.old ++ function_mention (unit_view unit.now) number) }
{
    match unit.functions.as_slice().get(number as usize) {
        Some(found) => put_named(out, "p", number as usize, found.name.as_str()),
        None => put_named(out, "p", number as usize, ""),
    }
}

/// The text of a scalar type.
#[tactic(auto, unfolding(crate::specs::Text::scalar_text))]
pub fn scalar_word(scalar: Scalar) -> &'static str
    ensures { result.now ≡ scalar_text scalar }
{
    match scalar {
        Scalar::Bool => "bool",
        Scalar::Int => "int",
        Scalar::Unsigned => "unsigned",
        Scalar::LongLong => "long long",
        Scalar::ULongLong => "unsigned long long",
    }
}

/// A type.
#[tactic(auto, unfolding(crate::specs::Text::type_text))]
pub fn put_type(out: &mut String, unit: &PlainUnit, of: &Type<u32>) -> Result<(), AllocError>
    ensures { OnOk result (string_bytes out.new ≡ string_bytes out.old ++ type_text (unit_view unit.now) (type_view of.now)) }
{
    match of {
        Type::Scalar(scalar) => out.push_str(scalar_word(*scalar)),
        Type::Struct(number) => put_struct(out, unit, *number),
    }
}

/// A type, or a reference to it.
#[tactic(auto, unfolding(crate::specs::Text::passed_text))]
pub fn put_passed(
    out: &mut String,
    unit: &PlainUnit,
    of: &Type<u32>,
    passing: Passing,
) -> Result<(), AllocError>
    ensures { OnOk result (string_bytes out.new ≡ string_bytes out.old ++ passed_text (unit_view unit.now) (type_view of.now) passing) }
{
    match passing {
        Passing::Value => put_type(out, unit, of),
        Passing::Reference => {
            put_type(out, unit, of)?;
            out.push_str("&")
        }
        Passing::ConstReference => {
            out.push_str("const ")?;
            put_type(out, unit, of)?;
            out.push_str("&")
        }
    }
}

/// The result of a function.
#[tactic(auto, unfolding(crate::specs::Text::returns_text))]
pub fn put_returns(
    out: &mut String,
    unit: &PlainUnit,
    returns: &Returns<u32>,
) -> Result<(), AllocError>
    ensures { OnOk result (string_bytes out.new ≡ string_bytes out.old ++ returns_text (unit_view unit.now) (returns_view returns.now)) }
{
    match returns {
        Returns::Void => out.push_str("void"),
        Returns::Gives(of, passing) => put_passed(out, unit, of, *passing),
    }
}

/// A parameter or a local of a number, as it is declared.
#[tactic(auto, unfolding(crate::specs::Text::declared_text))]
pub fn put_declared(
    out: &mut String,
    unit: &PlainUnit,
    number: usize,
    declared: &Declared<u32>,
) -> Result<(), AllocError>
    ensures { OnOk result (string_bytes out.new ≡ string_bytes out.old ++ declared_text (unit_view unit.now) number (declared_view declared.now)) }
{
    put_passed(out, unit, &declared.of, declared.passing)?;
    out.push_str(" ")?;
    put_named(out, "v", number, declared.name.as_str())
}

/// The suffix of a constant of a type.
#[tactic(auto, unfolding(crate::specs::Text::suffix))]
fn suffix_word(scalar: Scalar) -> &'static str
    ensures { result.now ≡ suffix scalar }
{
    match scalar {
        Scalar::Bool | Scalar::Int => "",
        Scalar::Unsigned => "u",
        Scalar::LongLong => "ll",
        Scalar::ULongLong => "ull",
    }
}

/// A number with the suffix of its type.
#[tactic(auto, using(crate::proofs::Constants::number_text_is))]
fn put_suffixed(out: &mut String, scalar: Scalar, value: i128) -> Result<(), AllocError>
    ensures { OnOk result (string_bytes out.new ≡ string_bytes out.old ++ number_text value ++ suffix scalar) }
{
    write!(out, "{value}")?;
    out.push_str(suffix_word(scalar))
}

/// A constant of a scalar type.
#[tactic(auto, unfolding(crate::specs::Text::constant_text))]
pub fn put_constant(out: &mut String, scalar: Scalar, value: i128) -> Result<(), AllocError>
    ensures { OnOk result (string_bytes out.new ≡ string_bytes out.old ++ constant_text scalar value) }
{
    match scalar {
        Scalar::Bool if value == 0 => out.push_str("false"),
        Scalar::Bool => out.push_str("true"),
        Scalar::Int => put_suffixed(out, Scalar::Int, value),
        Scalar::Unsigned => put_suffixed(out, Scalar::Unsigned, value),
        Scalar::LongLong => put_suffixed(out, Scalar::LongLong, value),
        Scalar::ULongLong => put_suffixed(out, Scalar::ULongLong, value),
    }
}

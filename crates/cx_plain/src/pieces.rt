//! Numbers, names and heads at the end of a text.

ghost use Rattle.std.specs.Prelude.{◌≡◌, ◌++◌, OnOk, string_bytes, decimal};
ghost use Rattle.cx_plain.specs.PlainTree.{function_view};
ghost use Rattle.cx_plain.specs.PlainText.{function_name, constant_text, prototype_text};

use crate::tree::Function;
use std::alloc::AllocError;

/// A number in decimal.
fn put_number(out: &mut String, number: usize) -> Result<(), AllocError>
    ensures { OnOk result (string_bytes out.new ≡ string_bytes out.old ++ decimal number) }
{
    write!(out, "{number}")
}

/// A constant of type int.
#[tactic(auto, using(crate::proofs::Constant::constant_text_is))]
pub fn put_constant(out: &mut String, value: i32) -> Result<(), AllocError>
    ensures { OnOk result (string_bytes out.new ≡ string_bytes out.old ++ constant_text value) }
{
    write!(out, "{value}")
}

/// The plain name of a function.
#[tactic(auto, unfolding(crate::specs::PlainText::function_name))]
pub fn put_name(out: &mut String, number: usize, name: &str) -> Result<(), AllocError>
    ensures { OnOk result (string_bytes out.new ≡ string_bytes out.old ++ function_name number name.now) }
{
    out.push_str("p")?;
    put_number(out, number)?;
    out.push_str("_")?;
    out.push_str(name)?;
    Ok(())
}

/// The prototype of a function.
#[tactic(auto, unfolding(crate::specs::PlainText::prototype_text))]
pub fn put_prototype(out: &mut String, number: usize, function: &Function) -> Result<(), AllocError>
    ensures { OnOk result (string_bytes out.new ≡ string_bytes out.old ++ prototype_text number (function_view function.now)) }
{
    out.push_str("int ")?;
    put_name(out, number, function.name.as_str())?;
    out.push_str("();\n")?;
    Ok(())
}

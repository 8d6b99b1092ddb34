//! The prototypes and the functions of a list at the end of a text, numbered from 0.

ghost use Rattle.std.specs.Prelude.{◌≡◌, ◌++◌, OnOk, string_bytes, length, map};
ghost use Rattle.std.specs.List.{AllByRecursion};
ghost use Rattle.cx_plain.specs.PlainTree.{function_view};
ghost use Rattle.cx_plain.specs.PlainText.{numbered, prototype_text, function_text};
ghost use Rattle.cx_plain.specs.PlainTyping.{IsTypedFunction};

use crate::body::put_function;
use crate::pieces::put_prototype;
use crate::tree::Function;
use std::alloc::AllocError;

/// The prototype of each function.
pub fn put_prototypes(out: &mut String, functions: &[Function]) -> Result<(), AllocError>
    ensures { OnOk result (string_bytes out.new ≡ string_bytes out.old ++ numbered prototype_text 0 (map function_view functions.now)) }
{
    for (number, function) in functions.iter().enumerate() {
        put_prototype(out, number, function)?;
    }
    Ok(())
}

/// Each function with its body.
pub fn put_functions(out: &mut String, functions: &[Function]) -> Result<(), AllocError>
    requires { AllByRecursion (IsTypedFunction (length functions.now)) (map function_view functions.now) }
    ensures { OnOk result (string_bytes out.new ≡ string_bytes out.old ++ numbered (function_text (map function_view functions.now)) 0 (map function_view functions.now)) }
{
    for (number, function) in functions.iter().enumerate() {
        put_function(out, functions, number, function)?;
    }
    Ok(())
}

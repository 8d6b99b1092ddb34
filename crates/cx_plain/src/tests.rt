ghost use Rattle.std.specs.Prelude.{◌≡◌, IfOk};
ghost use Rattle.cx_plain.specs.PlainTree.{PlainReturn, expr_view, stmt_view, plain_tree};
ghost use Rattle.cx_plain.specs.PlainTyping.{IsTyped, IsTypedExpr};

use super::*;
use cx_base::{List, Stop, Text};
use std::alloc::Global as Heap;
use std::test::Fail;

fn returning(alloc: Heap, name: &str, value: Expr) -> Result<Function, Stop>
    ensures { IfOk result (λ f. stmt_view f.body ≡ PlainReturn (expr_view value)) }
{
    Ok(Function {
        name: Text::from_str(alloc, name)?,
        body: Stmt::Return(value),
    })
}

/// A unit of two functions, the first of which calls none.
fn two(alloc: Heap, first: (&str, i32), second: &str, value: Expr) -> Result<PlainUnit, Stop>
    requires { IsTypedExpr 2 (expr_view value) }
    ensures { IfOk result (λ u. IsTyped (plain_tree u)) }
{
    let mut functions = Vec::new(alloc);
    functions.push(returning(alloc, first.0, Expr::Constant(first.1))?)?;
    functions.push(returning(alloc, second, value)?)?;
    Ok(PlainUnit {
        structs: List::new(alloc),
        globals: List::new(alloc),
        functions: List::from_vec(functions),
    })
}

/// `(X op X)`, with a call of function 0 on the left and a constant on the right.
fn operation(alloc: Heap, operator: BinaryOperator, right: i32) -> Result<Expr, Stop>
    ensures { IfOk result (λ e. IsTypedExpr 2 (expr_view e)) }
{
    let left = Box::new(alloc, Expr::Call(0))?;
    let right = Box::new(alloc, Expr::Constant(right))?;
    Ok(Expr::Binary(operator, left, right))
}

/// `(opX)` of such an operation.
fn prefixed(alloc: Heap, operator: UnaryOperator, right: i32) -> Result<Expr, Stop>
    ensures { IfOk result (λ e. IsTypedExpr 2 (expr_view e)) }
{
    let operand = Box::new(alloc, operation(alloc, BinaryOperator::Add, right)?)?;
    Ok(Expr::Unary(operator, operand))
}

#[test]
fn a_constant_and_a_call(rt: HostRuntime) -> Result<(), Fail> {
    let unit = two(rt.alloc(), ("a", 7), "b", Expr::Call(0))?;
    let text = print(rt.alloc(), &unit)?;
    let wanted = "// plain 1\n\
        int p0_a();\n\
        int p1_b();\n\
        int p0_a() {\n  return 7;\n}\n\
        int p1_b() {\n  return p0_a();\n}\n";
    assert_eq!(rt; text.as_slice(), wanted.as_bytes());
    Ok(())
}

#[test]
fn negative_constants_and_an_empty_name(rt: HostRuntime) -> Result<(), Fail> {
    let unit = two(rt.alloc(), ("", -5), "low", Expr::Constant(i32::MIN))?;
    let text = print(rt.alloc(), &unit)?;
    let wanted = "// plain 1\n\
        int p0_();\n\
        int p1_low();\n\
        int p0_() {\n  return -5;\n}\n\
        int p1_low() {\n  return -2147483648;\n}\n";
    assert_eq!(rt; text.as_slice(), wanted.as_bytes());
    Ok(())
}

#[test]
fn operators(rt: HostRuntime) -> Result<(), Fail> {
    let value = prefixed(rt.alloc(), UnaryOperator::Minus, -3)?;
    let unit = two(rt.alloc(), ("a", 7), "b", value)?;
    let text = print(rt.alloc(), &unit)?;
    let wanted = "// plain 1\n\
        int p0_a();\n\
        int p1_b();\n\
        int p0_a() {\n  return 7;\n}\n\
        int p1_b() {\n  return (-(p0_a() + -3));\n}\n";
    assert_eq!(rt; text.as_slice(), wanted.as_bytes());
    Ok(())
}

#[test]
fn nothing(rt: HostRuntime) -> Result<(), Fail> {
    let unit = PlainUnit {
        structs: List::new(rt.alloc()),
        globals: List::new(rt.alloc()),
        functions: List::new(rt.alloc()),
    };
    let text = print(rt.alloc(), &unit)?;
    assert_eq!(rt; text.as_slice(), "// plain 1\n".as_bytes());
    Ok(())
}

#[test]
fn laws(_rt: HostRuntime) {
    arithmetic();
    one_text(7, -7);
    steps();
    typed_is_defined();
}

//! The plain unit of a source.

ghost use Rattle.std.specs.Prelude.{◌≡◌, ◌^◌, ◌<◌, length, map, unwrap_or, IfOk, OnErr, IsErrOf};
ghost use Rattle.std.specs.Option.{option_map};
ghost use Rattle.cx_base.specs.Refusal.{Gives};
ghost use Rattle.cx_base.specs.declared.stop.Stop.TheVariants.{NoMemory};
ghost use Rattle.cx_plain.specs.PlainTree.{expr_view, function_view, plain_tree};
ghost use Rattle.cx_plain.specs.PlainTyping.{IsTyped};
ghost use Rattle.cx_tree.specs.Trees.{expr_tree};
ghost use Rattle.cx_statements.specs.DeclarationViews.{unit_tree};
ghost use Rattle.cx_engine.specs.Definitions.{definition_tree};
ghost use Rattle.cx_engine.specs.Names.{number_of};
ghost use Rattle.cx_engine.specs.Plain.{plain_call, plain_unary, plain_binary, plain_expr, plain_function, translated};
ghost use Rattle.cx_engine.specs.SourceMeaning.{MeansUnit};

use crate::definitions::Definition;
use crate::forms::{Mention, built_definitions, called_name, is_int_literal, plain_operator};
use crate::names::Names;
use crate::resolution::resolve_unit;
use cx_base::{List, Stop, Text};
use cx_plain::{
    BinaryOperator as PlainBinary, Expr as PlainExpr, Function as PlainFunction, PlainUnit, Stmt,
    UnaryOperator as PlainUnary,
};
use cx_statements::Unit;
use cx_tree::{Expr, UnaryOperator};
use std::alloc::Global;

/// What a unit is translated to.
#[derive(Drop)]
pub struct Translation {
    pub plain: PlainUnit,
}

/// What stands in the place of a form that is not built.
const UNBUILT: i32 = 0;

/// A call by the number of the function that it names.
fn plain_call<'s>(names: &Names<'s>, call: Option<Mention<'s>>) -> PlainExpr
    requires room { length names.now < 2 ^ 32 }
    ensures { expr_view result ≡ plain_call names.now (option_map (λ m. record { name = m.name.now; at = m.at }) call.entry) }
{
    match call {
        Some(called) => PlainExpr::Call(number_of(names, called.name)),
        None => PlainExpr::Constant(UNBUILT),
    }
}

/// A unary operator with its operand; a unary plus is its operand. Refuses for want of memory alone.
fn plain_unary(
    alloc: Global,
    operator: UnaryOperator,
    operand: PlainExpr,
) -> Result<PlainExpr, Stop>
    ensures ok { IfOk result (λ e. expr_view e ≡ plain_unary operator (expr_view operand)) }
    ensures only_memory { OnErr result (IsErrOf result NoMemory) }
{
    let operator = match operator {
        UnaryOperator::Plus => return Ok(operand),
        UnaryOperator::Minus => PlainUnary::Minus,
        UnaryOperator::Complement => PlainUnary::Complement,
        _ => return Ok(PlainExpr::Constant(UNBUILT)),
    };
    Ok(PlainExpr::Unary(operator, Box::new(alloc, operand)?))
}

/// A binary operator with its operands. Refuses for want of memory alone.
fn plain_binary(
    alloc: Global,
    operator: Option<PlainBinary>,
    left: PlainExpr,
    right: PlainExpr,
) -> Result<PlainExpr, Stop>
    ensures ok { IfOk result (λ e. expr_view e ≡ plain_binary operator (expr_view left) (expr_view right)) }
    ensures only_memory { OnErr result (IsErrOf result NoMemory) }
{
    let Some(operator) = operator else {
        return Ok(PlainExpr::Constant(UNBUILT));
    };
    let left = Box::new(alloc, left)?;
    let right = Box::new(alloc, right)?;
    Ok(PlainExpr::Binary(operator, left, right))
}

/// An expression over the names of its unit. Refuses for want of memory alone.
fn plain_expr<'s>(alloc: Global, names: &Names<'s>, expr: &Expr<'s>) -> Result<PlainExpr, Stop>
    requires room { length names.now < 2 ^ 32 }
    ensures ok { IfOk result (λ e. expr_view e ≡ plain_expr names.now (expr_tree expr.now)) }
    ensures only_memory { OnErr result (IsErrOf result NoMemory) }
{
    match expr {
        Expr::Int { scalar, value, .. } if is_int_literal(*scalar, *value) => Ok(
            PlainExpr::Constant(*value as i32),
        ),
        Expr::Call {
            callee,
            arguments,
            ..
        } => Ok(plain_call(names, called_name(callee, arguments))),
        Expr::Group { inner, .. } => plain_expr(alloc, names, inner),
        Expr::Unary {
            operator,
            operand,
            ..
        } => {
            let operand = plain_expr(alloc, names, operand)?;
            plain_unary(alloc, *operator, operand)
        }
        Expr::Binary {
            operator,
            left,
            right,
            ..
        } => {
            let left = plain_expr(alloc, names, left)?;
            let right = plain_expr(alloc, names, right)?;
            plain_binary(alloc, plain_operator(*operator), left, right)
        }
        _ => Ok(PlainExpr::Constant(UNBUILT)),
    }
}

/// The number of a name, or 0 where it is not declared.
fn number_of<'s>(names: &Names<'s>, name: &'s str) -> u32
    requires { length names.now < 2 ^ 32 }
    ensures { result ≡ unwrap_or (number_of name.now names.now) 0 }
{
    match names.number_of(name) {
        Some(number) => number as u32,
        None => 0,
    }
}

/// A function over the names of its unit. Refuses for want of memory alone.
fn plain_function<'s>(
    alloc: Global,
    names: &Names<'s>,
    function: &Definition<'_, 's>,
) -> Result<PlainFunction, Stop>
    requires room { length names.now < 2 ^ 32 }
    ensures ok { IfOk result (λ f. function_view f ≡ plain_function names.now (definition_tree function.now)) }
    ensures only_memory { OnErr result (IsErrOf result NoMemory) }
{
    let name = Text::from_str(alloc, function.name)?;
    let value = plain_expr(alloc, names, function.value)?;
    Ok(PlainFunction {
        name,
        body: Stmt::Return(value),
    })
}

/// The functions of a unit over its names. Refuses for want of memory alone.
fn plain_functions<'s>(
    alloc: Global,
    names: &Names<'s>,
    functions: &[Definition<'_, 's>],
) -> Result<Vec<PlainFunction>, Stop>
    requires room { length names.now < 2 ^ 32 }
    ensures ok { IfOk result (λ v. map function_view v.items ≡ map (plain_function names.now) (map definition_tree functions.now)) }
    ensures only_memory { OnErr result (IsErrOf result NoMemory) }
{
    let mut plain = Vec::new(alloc);
    for function in functions {
        plain.push(plain_function(alloc, names, function)?)?;
    }
    Ok(plain)
}

/// The plain unit of a unit: the functions that it defines in unit order, each call by the number of the function that it
/// names.
///
/// Refuses as Unsupported at the first form that is not built, in the order of the text, a node before its parts. Else
/// as Redeclared where a name is declared again, with the earlier place in `also`, and as UnknownName where a
/// call names what is not declared before ([basic.lookup.unqual]): the first of these in unit order. Else it refuses
/// for want of memory alone.
#[tactic(auto, unfolding(crate::specs::Plain::translated))]
pub fn translate_unit(alloc: Global, unit: &Unit) -> Result<Translation, Stop>
    requires room { length (unit_tree unit.now) < 2 ^ 32 }

    // Which plain unit it is, or which fault.
    ensures exact { Gives (λ t. plain_tree t.plain) result (translated (unit_tree unit.now)) }
    ensures typed { IfOk result (λ t. IsTyped (plain_tree t.plain)) }
    // For every number of steps each of its functions does what the function of the source does.
    ensures means { IfOk result (λ t. MeansUnit (unit_tree unit.now) (plain_tree t.plain)) }
{
    let definitions = built_definitions(alloc, unit)?;
    let names = resolve_unit(alloc, &definitions)?;
    let functions = plain_functions(alloc, &names, &definitions)?;
    Ok(Translation {
        plain: PlainUnit {
            structs: List::new(alloc),
            globals: List::new(alloc),
            functions: List::from_vec(functions),
        },
    })
}

//! The stage of names: each declaration is new, and each name in a body is declared before it.

ghost use Rattle.std.specs.Prelude.{◌≡◌, [], ◌∷◌, ◌++◌, map, IfOk, OnOk};
ghost use Rattle.cx_base.specs.Refusal.{Gives};
ghost use Rattle.cx_tree.specs.Trees.{expr_tree};
ghost use Rattle.cx_engine.specs.Definitions.{definition_tree};
ghost use Rattle.cx_engine.specs.Names.{declaration_of, declared, is_new, is_known, calls_in, names_called, names_function, names_unit};

use crate::definitions::Definition;
use crate::faults::{redeclared, unknown_name};
use crate::forms::called_name;
use crate::names::Names;
use cx_base::{Place, Stop};
use cx_tree::Expr;
use std::alloc::Global;

/// Declares a name that is new.
#[tactic(auto, unfolding(crate::specs::Names::is_new))]
fn declare<'s>(alloc: Global, names: &mut Names<'s>, name: &'s str, at: Place) -> Result<(), Stop>
    ensures exact { Gives (λ _. tt) result (is_new at (declaration_of name.now names.old)) }
    ensures adds { OnOk result (names.new ≡ names.old ++ record { name = name.now; at = at } ∷ []) }
{
    match names.place_of(name) {
        Some(earlier) => Err(redeclared(alloc, at, earlier)),
        None => names.add(name, at),
    }
}

/// Finds a name among those that are declared.
#[tactic(auto, unfolding(crate::specs::Names::is_known))]
fn find<'s>(alloc: Global, names: &Names<'s>, name: &'s str, at: Place) -> Result<(), Stop>
    ensures { Gives (λ _. tt) result (is_known at (declaration_of name.now names.now)) }
{
    match names.place_of(name) {
        Some(_) => Ok(()),
        None => Err(unknown_name(alloc, at)),
    }
}

/// Finds the names that an expression calls, in the order of the text.
#[tactic(auto, using(crate::proofs::ResolutionLemmas::names_called_append), unfolding(crate::specs::Names::names_called))]
fn resolve_calls<'s>(alloc: Global, names: &Names<'s>, expr: &Expr<'s>) -> Result<(), Stop>
    ensures { Gives (λ _. tt) result (names_called names.now (calls_in (expr_tree expr.now))) }
{
    match expr {
        Expr::Call {
            callee,
            arguments,
            ..
        } => match called_name(callee, arguments) {
            Some(called) => find(alloc, names, called.name, called.at),
            None => Ok(()),
        },
        Expr::Group { inner, .. } => resolve_calls(alloc, names, inner),
        Expr::Unary { operand, .. } => resolve_calls(alloc, names, operand),
        Expr::Binary { left, right, .. } => {
            resolve_calls(alloc, names, left)?;
            resolve_calls(alloc, names, right)
        }
        _ => Ok(()),
    }
}

/// Declares a function, and finds the names of its body.
#[tactic(auto, unfolding(crate::specs::Names::names_function))]
fn resolve_function<'s>(
    alloc: Global,
    names: &mut Names<'s>,
    function: &Definition<'_, 's>,
) -> Result<(), Stop>
    ensures exact { Gives (λ _. tt) result (names_function names.old (definition_tree function.now)) }
    ensures adds { OnOk result (names.new ≡ names.old ++ declared (definition_tree function.now) ∷ []) }
{
    declare(alloc, names, function.name, function.at)?;
    resolve_calls(alloc, names, function.value)
}

/// The names of a unit's functions, in order. Refuses at its first fault of names, in unit order.
pub(crate) fn resolve_unit<'s>(
    alloc: Global,
    functions: &[Definition<'_, 's>],
) -> Result<Names<'s>, Stop>
    ensures exact { Gives (λ _. tt) result (names_unit (map definition_tree functions.now)) }
    ensures all { IfOk result (λ names. names ≡ map declared (map definition_tree functions.now)) }
{
    let mut names = Names::new(alloc);
    for function in functions {
        resolve_function(alloc, &mut names, function)?;
    }
    Ok(names)
}

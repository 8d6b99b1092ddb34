//! The nodes of functions with their parameters, walked over in order.
#![tactic(auto, using(cx_tree::proofs::Walks::walked_append))]

ghost use Rattle.std.specs.Prelude.{◌≡◌, map};
ghost use Rattle.std.specs.List.{flat_map};
ghost use Rattle.cx_tree.specs.Nodes.{walked};
ghost use Rattle.cx_tree.specs.UnitNodes.{parameter_nodes, function_nodes};
ghost use Rattle.cx_statements.specs.DeclarationViews.{parameter_tree, function_decl};

use crate::declaration::{FunctionDecl, Parameter};
use crate::optional::walk_maybe_expr;
use crate::statements::walk_maybe_stmt;
use crate::variables::walk_written;
use cx_tree::{Walk, step, walk_type};

/// Walks over the nodes of a parameter.
fn walk_parameter(parameter: &Parameter, walk: Walk) -> Walk
    ensures { result ≡ walked walk (parameter_nodes (parameter_tree parameter.now)) }
{
    step(walk_written(&parameter.written, walk), parameter.at)
}

/// Walks over the nodes of parameters, in order.
fn walk_parameters(items: &[Parameter], walk: Walk) -> Walk
    ensures { result ≡ walked walk (flat_map parameter_nodes (map parameter_tree items.now)) }
{
    let mut walk = walk;
    for item in items {
        walk = walk_parameter(item, walk);
    }
    walk
}

/// Walks over the nodes of a function.
pub(crate) fn walk_function(function: &FunctionDecl, walk: Walk) -> Walk
    ensures { result ≡ walked walk (function_nodes (function_decl function.now)) }
{
    let walk = walk_type(&function.result, walk);
    let walk = walk_parameters(&function.parameters, walk);
    let walk = walk_maybe_expr(&function.trailing, walk);
    let walk = walk_maybe_stmt(&function.body, walk);
    step(walk, function.at)
}

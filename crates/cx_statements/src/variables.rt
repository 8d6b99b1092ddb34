//! The nodes of variables with their types and initialisers, walked over in order.
#![tactic(auto, using(cx_tree::proofs::Walks::walked_append))]

ghost use Rattle.std.specs.Prelude.{◌≡◌};
ghost use Rattle.std.specs.Option.{option_map};
ghost use Rattle.cx_tree.specs.Nodes.{walked};
ghost use Rattle.cx_tree.specs.UnitNodes.{constraint_nodes, maybe_constraint_nodes, auto_nodes, written_nodes, init_nodes, variable_nodes};
ghost use Rattle.cx_statements.specs.StatementViews.{constraint_tree, auto_tree, written_type, init_tree, variable_tree};

use crate::statement::{Auto, Constraint, Init, Variable, WrittenType};
use cx_tree::{Walk, step, walk_arguments, walk_expr, walk_exprs, walk_type};

/// Walks over the nodes of a constraint.
pub(crate) fn walk_constraint(constraint: &Constraint, walk: Walk) -> Walk
    ensures { result ≡ walked walk (constraint_nodes (constraint_tree constraint.now)) }
{
    step(walk_arguments(&constraint.arguments, walk), constraint.at)
}

/// Walks over the nodes of a constraint, if there is one.
fn walk_maybe_constraint(constraint: &Option<Constraint>, walk: Walk) -> Walk
    ensures { result ≡ walked walk (maybe_constraint_nodes (option_map constraint_tree constraint.now)) }
{
    match constraint {
        None => walk,
        Some(constraint) => walk_constraint(constraint, walk),
    }
}

/// Walks over the nodes of an `auto`.
fn walk_auto(auto: &Auto, walk: Walk) -> Walk
    ensures { result ≡ walked walk (auto_nodes (auto_tree auto.now)) }
{
    step(walk_maybe_constraint(&auto.constraint, walk), auto.at)
}

/// Walks over the nodes of the type that a declaration is written with.
pub(crate) fn walk_written(written: &WrittenType, walk: Walk) -> Walk
    ensures { result ≡ walked walk (written_nodes (written_type written.now)) }
{
    match written {
        WrittenType::Type(syn) => walk_type(syn, walk),
        WrittenType::Auto(auto) => walk_auto(auto, walk),
    }
}

/// Walks over the nodes of an initialiser.
pub(crate) fn walk_init(init: &Init, walk: Walk) -> Walk
    ensures { result ≡ walked walk (init_nodes (init_tree init.now)) }
{
    match init {
        Init::Value(expr) => walk_expr(expr, walk),
        Init::List { at, items, .. } => step(walk_exprs(items, walk), *at),
    }
}

/// Walks over the nodes of a variable.
pub(crate) fn walk_variable(variable: &Variable, walk: Walk) -> Walk
    ensures { result ≡ walked walk (variable_nodes (variable_tree variable.now)) }
{
    let walk = walk_written(&variable.written, walk);
    step(walk_init(&variable.init, walk), variable.at)
}

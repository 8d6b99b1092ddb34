//! The nodes of parts that may be left out, walked over in order.

ghost use Rattle.std.specs.Prelude.{◌≡◌};
ghost use Rattle.std.specs.Option.{option_map};
ghost use Rattle.cx_tree.specs.Trees.{expr_tree, type_tree};
ghost use Rattle.cx_tree.specs.Nodes.{walked};
ghost use Rattle.cx_tree.specs.UnitNodes.{maybe_expr_nodes, maybe_type_nodes};

use cx_tree::{Expr, TypeSyn, Walk, walk_expr, walk_type};

/// Walks over the nodes of an expression, if there is one.
pub(crate) fn walk_maybe_expr(expr: &Option<Expr>, walk: Walk) -> Walk
    ensures { result ≡ walked walk (maybe_expr_nodes (option_map expr_tree expr.now)) }
{
    match expr {
        None => walk,
        Some(expr) => walk_expr(expr, walk),
    }
}

/// Walks over the nodes of a type, if there is one.
pub(crate) fn walk_maybe_type(syn: &Option<TypeSyn>, walk: Walk) -> Walk
    ensures { result ≡ walked walk (maybe_type_nodes (option_map type_tree syn.now)) }
{
    match syn {
        None => walk,
        Some(syn) => walk_type(syn, walk),
    }
}

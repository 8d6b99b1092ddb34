//! The nodes of a tree, walked over in order.

ghost use Rattle.std.specs.Prelude.{◌≡◌, [], ◌∷◌, map};
ghost use Rattle.cx_tree.specs.Trees.{expr_tree, exprs, argument_tree, arguments, core_tree, type_tree};
ghost use Rattle.cx_tree.specs.Nodes.{walked, expr_nodes, exprs_nodes, argument_nodes, core_nodes, type_nodes};

use crate::expression::{Expr, TemplateArgument};
use crate::types::{Core, TypeSyn};
use crate::walk::{Walk, step};
use cx_base::Place;

/// Walks over the nodes of an expression: its parts in the order of the text, then its own.
#[cycle(places)]
pub fn walk_expr(expr: &Expr, walk: Walk) -> Walk
    ensures { result ≡ walked walk (expr_nodes (expr_tree expr.now)) }
{
    match expr {
        Expr::Int { at, .. } | Expr::Bool { at, .. } | Expr::Name { at, .. } => step(walk, *at),
        Expr::Template { at, arguments, .. } => step(walk_arguments(arguments, walk), *at),
        Expr::Qualified { at, head, .. } => step(walk_type(head, walk), *at),
        Expr::List { at, of, items, .. } => step(walk_exprs(items, walk_type(of, walk)), *at),
        Expr::StaticCast {
            at,
            to,
            operand,
            ..
        } => step(walk_expr(operand, walk_type(to, walk)), *at),
        Expr::IsSame {
            at,
            left,
            right,
            ..
        } => step(walk_type(right, walk_type(left, walk)), *at),
        Expr::Group { at, inner, .. } => step(walk_expr(inner, walk), *at),
        Expr::Out { at, operand, .. } => step(walk_expr(operand, walk), *at),
        Expr::Member { at, object, .. } => step(walk_expr(object, walk), *at),
        Expr::Postfix { at, operand, .. } => step(walk_expr(operand, walk), *at),
        Expr::Unary { at, operand, .. } => step(walk_expr(operand, walk), *at),
        Expr::Call {
            at,
            callee,
            arguments,
            ..
        } => step(walk_exprs(arguments, walk_expr(callee, walk)), *at),
        Expr::Binary {
            at,
            left,
            right,
            ..
        } => step(walk_expr(right, walk_expr(left, walk)), *at),
        Expr::Assignment {
            at,
            target,
            value,
            ..
        } => step(walk_expr(value, walk_expr(target, walk)), *at),
        Expr::Conditional {
            at,
            condition,
            then,
            otherwise,
            ..
        } => {
            let walk = walk_expr(then, walk_expr(condition, walk));
            step(walk_expr(otherwise, walk), *at)
        }
    }
}

/// Walks over the nodes of expressions, in order.
#[cycle(places)]
pub fn walk_exprs(items: &[Expr], walk: Walk) -> Walk
    ensures { result ≡ walked walk (exprs_nodes (exprs (map expr_tree items.now))) }
{
    let mut walk = walk;
    for item in items {
        walk = walk_expr(item, walk);
    }
    walk
}

/// Walks over the nodes of a type.
#[cycle(places)]
pub fn walk_type(syn: &TypeSyn, walk: Walk) -> Walk
    ensures { result ≡ walked walk (type_nodes (type_tree syn.now)) }
{
    step(walk_core(&syn.core, walk), syn.at)
}

/// Walks over the nodes in a core, which is none itself.
#[cycle(places)]
fn walk_core(core: &Core, walk: Walk) -> Walk
    ensures { result ≡ walked walk (core_nodes (core_tree core.now)) }
{
    match core {
        Core::Scalar(_) | Core::Void | Core::TypeName(_) => walk,
        Core::Class(_, arguments) => walk_arguments(arguments, walk),
        Core::MemberType(head, _) => walk_type(head, walk),
        Core::Decltype(operand) => walk_expr(operand, walk),
    }
}

/// Walks over the nodes of template arguments, in order.
#[cycle(places)]
pub fn walk_arguments(items: &[TemplateArgument], walk: Walk) -> Walk
    ensures { result ≡ walked walk (argument_nodes (arguments (map argument_tree items.now))) }
{
    let mut walk = walk;
    for item in items {
        walk = walk_argument(item, walk);
    }
    walk
}

/// Walks over the nodes of a template argument.
#[cycle(places)]
fn walk_argument(argument: &TemplateArgument, walk: Walk) -> Walk
    ensures { result ≡ walked walk (argument_nodes (arguments (argument_tree argument.now ∷ []))) }
{
    match argument {
        TemplateArgument::Type(syn) => walk_type(syn, walk),
        TemplateArgument::Value(expr) => walk_expr(expr, walk),
    }
}

impl Expr<'_> {
    ghost use Rattle.std.specs.Prelude.{◌≡◌};
    ghost use Rattle.cx_tree.specs.Trees.{expr_tree, expr_mark};

    /// The place of its own node.
    pub fn at(&self) -> Place
        ensures { result ≡ (expr_mark (expr_tree self.now)).at }
    {
        match self {
            Expr::Int { at, .. }
            | Expr::Bool { at, .. }
            | Expr::Name { at, .. }
            | Expr::Template { at, .. }
            | Expr::Qualified { at, .. }
            | Expr::List { at, .. }
            | Expr::Group { at, .. }
            | Expr::StaticCast { at, .. }
            | Expr::IsSame { at, .. }
            | Expr::Out { at, .. }
            | Expr::Member { at, .. }
            | Expr::Call { at, .. }
            | Expr::Postfix { at, .. }
            | Expr::Unary { at, .. }
            | Expr::Binary { at, .. }
            | Expr::Conditional { at, .. }
            | Expr::Assignment { at, .. } => *at,
        }
    }
}

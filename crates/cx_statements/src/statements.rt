//! The nodes of statements, walked over in order.
#![tactic(auto, using(cx_tree::proofs::Walks::walked_append))]

ghost use Rattle.std.specs.Prelude.{◌≡◌, map};
ghost use Rattle.std.specs.Option.{option_map};
ghost use Rattle.cx_tree.specs.Nodes.{walked};
ghost use Rattle.cx_tree.specs.Statements.{stmts};
ghost use Rattle.cx_tree.specs.UnitNodes.{for_init_nodes, assert_nodes, stmt_nodes, stmts_nodes, maybe_stmt_nodes};
ghost use Rattle.cx_statements.specs.StatementViews.{for_init, assert_tree, stmt_tree};

use crate::optional::walk_maybe_expr;
use crate::statement::{Assertion, ForInit, Stmt};
use crate::variables::walk_variable;
use cx_tree::{Walk, step, walk_expr};

/// Walks over the nodes of what stands first in the head of a `for`.
fn walk_for_init(init: &ForInit, walk: Walk) -> Walk
    ensures { result ≡ walked walk (for_init_nodes (for_init init.now)) }
{
    match init {
        ForInit::Nothing => walk,
        ForInit::Variable(variable) => walk_variable(variable, walk),
        ForInit::Expression(expr) => walk_expr(expr, walk),
    }
}

/// Walks over the nodes of a `static_assert`.
pub(crate) fn walk_assertion(assertion: &Assertion, walk: Walk) -> Walk
    ensures { result ≡ walked walk (assert_nodes (assert_tree assertion.now)) }
{
    step(walk_expr(&assertion.condition, walk), assertion.at)
}

/// Walks over the nodes of a statement: its parts in the order of the text, then its own.
#[cycle(statements)]
fn walk_stmt(statement: &Stmt, walk: Walk) -> Walk
    ensures { result ≡ walked walk (stmt_nodes (stmt_tree statement.now)) }
{
    match statement {
        Stmt::Empty { at, .. } | Stmt::Break { at, .. } | Stmt::Continue { at, .. } => {
            step(walk, *at)
        }
        Stmt::Block { at, statements, .. } => step(walk_stmts(statements, walk), *at),
        Stmt::StaticAssert(assertion) => walk_assertion(assertion, walk),
        Stmt::Return { at, value, .. } => step(walk_maybe_expr(value, walk), *at),
        Stmt::If {
            at,
            condition,
            then,
            otherwise,
            ..
        } => {
            let walk = walk_stmt(then, walk_expr(condition, walk));
            match otherwise {
                None => step(walk, *at),
                Some(otherwise) => step(walk_stmt(otherwise, walk), *at),
            }
        }
        Stmt::While {
            at,
            condition,
            body,
            ..
        } => step(walk_stmt(body, walk_expr(condition, walk)), *at),
        Stmt::For {
            at,
            init,
            condition,
            step: stride,
            body,
            ..
        } => {
            let walk = walk_maybe_expr(condition, walk_for_init(init, walk));
            let walk = walk_maybe_expr(stride, walk);
            step(walk_stmt(body, walk), *at)
        }
        Stmt::Variable(variable) => walk_variable(variable, walk),
        Stmt::Expression { at, expr, .. } => step(walk_expr(expr, walk), *at),
    }
}

/// Walks over the nodes of statements, in order.
#[cycle(statements)]
fn walk_stmts(items: &[Stmt], walk: Walk) -> Walk
    ensures { result ≡ walked walk (stmts_nodes (stmts (map stmt_tree items.now))) }
{
    let mut walk = walk;
    for item in items {
        walk = walk_stmt(item, walk);
    }
    walk
}

/// Walks over the nodes of a statement, if there is one.
pub(crate) fn walk_maybe_stmt(statement: &Option<Stmt>, walk: Walk) -> Walk
    ensures { result ≡ walked walk (maybe_stmt_nodes (option_map stmt_tree statement.now)) }
{
    match statement {
        None => walk,
        Some(statement) => walk_stmt(statement, walk),
    }
}

//! What the parsers of other crates call.

ghost use Rattle.std.specs.Prelude.{◌≡◌, ◌<◌, ◌≤◌, ◌+◌, ◌^◌, length, IfOk};
ghost use Rattle.cx_statements.specs.StatementViews.{stmt_tree};
ghost use Rattle.cx_grammar.specs.Statements as statements;
ghost use Rattle.cx_spots.specs.Spots.{ReadsNode, Lightens, weight};
ghost use Rattle.cx_parse_stmt.specs.Within.{ReadsNamed, standing, within};
ghost use Rattle.cx_parse_stmt.specs.Views.{names_behind};

use crate::statement::{block, statement};
use cx_scope::Scope;
use cx_spots::{Read, Spot};
use cx_statements::Stmt;
use std::alloc::Global;

/// Reads a statement ([stmt.stmt]), where so many constructs are open; it is a construct itself. Where it declares a
/// variable, its name is then noted in the innermost scope; else the scope is then as before. Nothing is said of the
/// scope where the statement is refused.
#[tactic(auto, unfolding(cx_grammar::specs::Statements::stmt))]
pub fn read_stmt<'t, 's>(
    alloc: Global,
    scope: &mut Scope<'s>,
    load: u32,
    spot: Spot<'t, 's>,
) -> Read<'t, 's, Stmt<'s>>
    requires load { load ≤ 256 }
    requires room { weight spot < 2 ^ 32 }
    requires frame { 0 < length scope.old }
    ensures exact { ReadsNamed stmt_tree (λ s. scope.new) (statements.stmt (within (standing scope.old load)) (standing scope.old load)) spot.entry result }
    ensures scope { IfOk result (λ x. scope.new ≡ names_behind scope.old (stmt_tree x.0)) }
    ensures lightens { Lightens 4 spot.entry result }
{
    statement(alloc, scope, load + 1, spot)
}

/// Reads a block ([stmt.block]). The scope is then as before. Nothing is said of it where the block is refused.
pub fn read_block<'t, 's>(
    alloc: Global,
    scope: &mut Scope<'s>,
    load: u32,
    spot: Spot<'t, 's>,
) -> Read<'t, 's, Stmt<'s>>
    requires load { load ≤ 257 }
    requires room { weight spot < 2 ^ 32 }
    ensures exact { ReadsNode stmt_tree (statements.block (within (standing scope.old load)) (standing scope.old load)) spot.entry result }
    ensures scope { IfOk result (λ x. scope.new ≡ scope.old) }
    ensures lightens { Lightens 4 spot.entry result }
{
    block(alloc, scope, load, spot)
}

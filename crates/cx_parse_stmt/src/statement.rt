//! Statements that hold statements ([stmt.block], [stmt.select], [stmt.iter]).

ghost use Rattle.std.specs.Prelude.{◌≡◌, ◌<◌, ◌≤◌, ◌+◌, ◌^◌, [], codes, length, map, IfOk};
ghost use Rattle.cx_tree.specs.Trees.{expr_tree};
ghost use Rattle.cx_statements.specs.StatementViews.{stmt_tree};
ghost use Rattle.cx_scope.specs.Frames.{left};
ghost use Rattle.cx_grammar.specs.Names.{inside};
ghost use Rattle.cx_grammar.specs.Types.{numbered};
ghost use Rattle.cx_grammar.specs.Production.{repeat};
ghost use Rattle.cx_grammar.specs.Requires as requirements;
ghost use Rattle.cx_grammar.specs.Statements as statements;
ghost use Rattle.cx_spots.specs.Spots.{Reads, ReadsNode, Lightens, weight, context_of, left_at, below};
ghost use Rattle.cx_parse_stmt.specs.Parts.{maybe_constexpr, open_or_holding_stmt, worded_stmt};
ghost use Rattle.cx_parse_stmt.specs.Within.{ReadsNamed, standing, here, opened};
ghost use Rattle.cx_parse_stmt.specs.Views.{names_behind};

use crate::head::for_head;
use crate::jump::{assert_stmt, break_stmt, condition, continue_stmt, empty_stmt, return_stmt};
use crate::open::open_stmt;
use crate::opened::noted;
use crate::place::{closes_block, standing};
use cx_base::Place;
use cx_scope::Scope;
use cx_spots::{Class, Context, Read, Spot};
use cx_statements::Stmt;
use cx_tree::Expr;
use std::alloc::Global;

/// An `if` before its statements.
#[derive(Drop)]
struct Selection<'s> {
    at: Place,
    is_constexpr: bool,
    condition: Expr<'s>,
}

/// `constexpr` or nothing ([stmt.if]).
fn maybe_constexpr<'t, 's>(context: Context<'_, 's>, spot: Spot<'t, 's>) -> Read<'t, 's, bool>
    ensures exact { Reads (λ b. b) (maybe_constexpr (context_of context.entry)) spot.entry result }
    ensures lightens { Lightens 0 spot.entry result }
    ensures next { IfOk result (λ x. x.1.next ≡ spot.entry.next) }
{
    if !spot.begins(context, Class::Word("constexpr")) {
        return Ok((false, spot));
    }
    let (_, spot) = spot.take(context, context.load, Class::Word("constexpr"))?;
    Ok((true, spot))
}

/// One statement more. The names that it declares are then noted.
#[cycle(statements)]
fn more_stmt<'t, 's>(
    alloc: Global,
    scope: &mut Scope<'s>,
    load: u32,
    so_far: Vec<Stmt<'s>>,
    spot: Spot<'t, 's>,
) -> Read<'t, 's, Vec<Stmt<'s>>>
    requires load { load ≤ 255 }
    requires room { weight spot < 2 ^ 32 }
    requires frame { 0 < length scope.old }
    ensures exact { ReadsNamed (λ v. map stmt_tree v.items) (λ v. scope.new) (λ n. statements.more_stmt (opened load) (inside (standing scope.old load)) (map stmt_tree so_far.entry.items, n, scope.old)) spot.entry result }
    ensures outer { IfOk result (λ x. left scope.new ≡ left scope.old) }
    ensures depth { IfOk result (λ x. length scope.new ≡ length scope.old) }
    ensures lightens { Lightens 4 spot.entry result }
{
    let (more, spot) = statement(alloc, scope, load + 1 + 1, spot)?;
    let mut all = so_far;
    all.push(more)?;
    Ok((all, spot))
}

/// Statements up to the end of their block. The names that they declare are then noted.
#[cycle(statements)]
fn statement_seq<'t, 's>(
    alloc: Global,
    scope: &mut Scope<'s>,
    load: u32,
    spot: Spot<'t, 's>,
) -> Read<'t, 's, Vec<Stmt<'s>>>
    requires load { load ≤ 255 }
    requires room { weight spot < 2 ^ 32 }
    requires frame { 0 < length scope.old }
    ensures exact { ReadsNamed (λ v. map stmt_tree v.items) (λ v. scope.new) (λ n. repeat requirements.is_not_closing (statements.more_stmt (opened load) (inside (standing (left scope.old) load))) ([], n, scope.old)) spot.entry result }
    ensures outer { IfOk result (λ x. left scope.new ≡ left scope.old) }
    ensures depth { IfOk result (λ x. length scope.new ≡ length scope.old) }
    ensures lightens { Lightens 0 spot.entry result }
{
    let mut all: Vec<Stmt<'s>> = Vec::new(alloc);
    let mut spot = spot;
    'statements: while !closes_block(spot) {
        let (more, behind) = more_stmt(alloc, scope, load, all, spot)?;
        all = more;
        spot = behind;
    }
    Ok((all, spot))
}

/// A block: its names are forgotten behind it ([basic.scope.block]).
#[cycle(statements)]
#[tactic(auto, unfolding(cx_grammar::specs::Statements::block))]
pub(crate) fn block<'t, 's>(
    alloc: Global,
    scope: &mut Scope<'s>,
    load: u32,
    spot: Spot<'t, 's>,
) -> Read<'t, 's, Stmt<'s>>
    requires load { load ≤ 257 }
    requires room { weight spot < 2 ^ 32 }
    ensures exact { ReadsNode stmt_tree (statements.block (opened load) (standing scope.old load)) spot.entry result }
    ensures scope { IfOk result (λ x. scope.new ≡ scope.old) }
    ensures nameless { IfOk result (λ x. names_behind scope.old (stmt_tree x.0) ≡ scope.old) }
    ensures lightens { Lightens 4 spot.entry result }
{
    let (open, spot) = spot.take(standing(alloc, scope, load), load + 1, Class::Punct("{"))?;
    scope.enter()?;
    let (statements, spot) = statement_seq(alloc, scope, load, spot)?;
    let (_, spot) = spot.take(standing(alloc, scope, load), load + 1, Class::Punct("}"))?;
    scope.leave();
    let (node, spot) = spot.number();
    Ok((
        Stmt::Block {
            node,
            at: open.token.at,
            statements,
        },
        spot,
    ))
}

/// A statement that is a part of another one: its names are forgotten behind it ([stmt.select], [stmt.iter]).
#[cycle(statements)]
#[tactic(auto, unfolding(cx_grammar::specs::Statements::substatement))]
fn substatement<'t, 's>(
    alloc: Global,
    scope: &mut Scope<'s>,
    load: u32,
    spot: Spot<'t, 's>,
) -> Read<'t, 's, Box<Stmt<'s>>>
    requires load { load ≤ 256 }
    requires room { weight spot < 2 ^ 32 }
    ensures exact { ReadsNode (λ s. stmt_tree s.value) (statements.substatement (opened load) (standing scope.old load)) spot.entry result }
    ensures scope { IfOk result (λ x. scope.new ≡ scope.old) }
    ensures lightens { Lightens 4 spot.entry result }
{
    scope.enter()?;
    let (stmt, spot) = statement(alloc, scope, load + 1, spot)?;
    scope.leave();
    Ok((Box::new(alloc, stmt)?, spot))
}

/// `else` with its statement, or none: it belongs to the nearest `if` ([stmt.if]).
#[cycle(statements)]
#[tactic(auto, unfolding(cx_grammar::specs::Statements::alternative))]
fn alternative<'t, 's>(
    alloc: Global,
    scope: &mut Scope<'s>,
    load: u32,
    selection: Selection<'s>,
    then: Box<Stmt<'s>>,
    spot: Spot<'t, 's>,
) -> Read<'t, 's, Stmt<'s>>
    requires load { load ≤ 256 }
    requires room { weight spot + 1 < 2 ^ 32 }
    ensures exact { ReadsNode stmt_tree (λ n. statements.alternative (opened load) (standing scope.old load) (numbered n selection.entry.at) selection.entry.is_constexpr (expr_tree selection.entry.condition) (stmt_tree then.entry.value, n)) spot.entry result }
    ensures scope { IfOk result (λ x. scope.new ≡ scope.old) }
    ensures nameless { IfOk result (λ x. names_behind scope.old (stmt_tree x.0) ≡ scope.old) }
    ensures lightens { IfOk result (λ x. (spot.entry.next ≤ x.1.next) × (weight x.1 ≤ weight spot.entry + 1)) }
{
    if !spot.begins(standing(alloc, scope, load), Class::Word("else")) {
        let (node, spot) = spot.number();
        let stmt = Stmt::If {
            node,
            at: selection.at,
            is_constexpr: selection.is_constexpr,
            condition: selection.condition,
            then,
            otherwise: None,
        };
        return Ok((stmt, spot));
    }
    let (_, spot) = spot.take(standing(alloc, scope, load), load, Class::Word("else"))?;
    let (otherwise, spot) = substatement(alloc, scope, load, spot)?;
    let (node, spot) = spot.number();
    let stmt = Stmt::If {
        node,
        at: selection.at,
        is_constexpr: selection.is_constexpr,
        condition: selection.condition,
        then,
        otherwise: Some(otherwise),
    };
    Ok((stmt, spot))
}

/// `if` ([stmt.if]).
#[cycle(statements)]
#[tactic(auto, unfolding(cx_grammar::specs::Statements::if_stmt, cx_grammar::specs::Statements::alternative))]
fn if_stmt<'t, 's>(
    alloc: Global,
    scope: &mut Scope<'s>,
    load: u32,
    spot: Spot<'t, 's>,
) -> Read<'t, 's, Stmt<'s>>
    requires load { load ≤ 257 }
    requires room { weight spot < 2 ^ 32 }
    ensures exact { ReadsNode stmt_tree (statements.if_stmt (opened load) (standing scope.old load)) spot.entry result }
    ensures scope { IfOk result (λ x. scope.new ≡ scope.old) }
    ensures nameless { IfOk result (λ x. names_behind scope.old (stmt_tree x.0) ≡ scope.old) }
    ensures lightens { Lightens 4 spot.entry result }
{
    let context = Context {
        alloc,
        scope: &*scope,
        angle: 0,
        load,
    };
    let (word, spot) = spot.take(context, load, Class::Word("if"))?;
    let (is_constexpr, spot) = maybe_constexpr(context, spot)?;
    let (condition, spot) = condition(context, spot)?;
    let (then, spot) = substatement(alloc, scope, load, spot)?;
    let selection = Selection {
        at: word.token.at,
        is_constexpr,
        condition,
    };
    alternative(alloc, scope, load, selection, then, spot)
}

/// `while` ([stmt.while]).
#[cycle(statements)]
#[tactic(auto, unfolding(cx_grammar::specs::Statements::while_stmt))]
fn while_stmt<'t, 's>(
    alloc: Global,
    scope: &mut Scope<'s>,
    load: u32,
    spot: Spot<'t, 's>,
) -> Read<'t, 's, Stmt<'s>>
    requires load { load ≤ 257 }
    requires room { weight spot < 2 ^ 32 }
    ensures exact { ReadsNode stmt_tree (statements.while_stmt (opened load) (standing scope.old load)) spot.entry result }
    ensures scope { IfOk result (λ x. scope.new ≡ scope.old) }
    ensures nameless { IfOk result (λ x. names_behind scope.old (stmt_tree x.0) ≡ scope.old) }
    ensures lightens { Lightens 4 spot.entry result }
{
    let context = Context {
        alloc,
        scope: &*scope,
        angle: 0,
        load,
    };
    let (word, spot) = spot.take(context, load, Class::Word("while"))?;
    let (condition, spot) = condition(context, spot)?;
    let (body, spot) = substatement(alloc, scope, load, spot)?;
    let (node, spot) = spot.number();
    let stmt = Stmt::While {
        node,
        at: word.token.at,
        condition,
        body,
    };
    Ok((stmt, spot))
}

/// `for`: the names of its head are forgotten behind it ([stmt.for]).
#[cycle(statements)]
#[tactic(auto, unfolding(cx_grammar::specs::Statements::for_stmt))]
fn for_stmt<'t, 's>(
    alloc: Global,
    scope: &mut Scope<'s>,
    load: u32,
    spot: Spot<'t, 's>,
) -> Read<'t, 's, Stmt<'s>>
    requires load { load ≤ 257 }
    requires room { weight spot < 2 ^ 32 }
    ensures exact { ReadsNode stmt_tree (statements.for_stmt (opened load) (standing scope.old load)) spot.entry result }
    ensures scope { IfOk result (λ x. scope.new ≡ scope.old) }
    ensures nameless { IfOk result (λ x. names_behind scope.old (stmt_tree x.0) ≡ scope.old) }
    ensures lightens { Lightens 4 spot.entry result }
{
    let (word, spot) = spot.take(standing(alloc, scope, load), load, Class::Word("for"))?;
    let (_, spot) = spot.take(standing(alloc, scope, load), load + 1, Class::Punct("("))?;
    scope.enter()?;
    let (head, spot) = for_head(alloc, scope, load + 1, spot)?;
    let (_, spot) = spot.take(standing(alloc, scope, load), load + 1, Class::Punct(")"))?;
    let (body, spot) = substatement(alloc, scope, load, spot)?;
    scope.leave();
    let (node, spot) = spot.number();
    let stmt = Stmt::For {
        node,
        at: word.token.at,
        init: head.init,
        condition: head.condition,
        step: head.step,
        body,
    };
    Ok((stmt, spot))
}

/// A statement that holds others, a variable or an expression, by its first token.
#[cycle(statements)]
fn open_or_holding_stmt<'t, 's>(
    alloc: Global,
    scope: &mut Scope<'s>,
    load: u32,
    spot: Spot<'t, 's>,
) -> Read<'t, 's, Stmt<'s>>
    requires load { load ≤ 257 }
    requires room { weight spot < 2 ^ 32 }
    requires frame { 0 < length scope.old }
    ensures exact { ReadsNamed stmt_tree (λ s. scope.new) (open_or_holding_stmt (opened load) (standing scope.old load)) spot.entry result }
    ensures scope { IfOk result (λ x. scope.new ≡ names_behind scope.old (stmt_tree x.0)) }
    ensures lightens { Lightens 4 spot.entry result }
{
    let context = Context {
        alloc,
        scope: &*scope,
        angle: 0,
        load,
    };
    if spot.begins(context, Class::Word("if")) {
        let (stmt, spot) = if_stmt(alloc, scope, load, spot)?;
        Ok((stmt, spot))
    } else if spot.begins(context, Class::Word("while")) {
        let (stmt, spot) = while_stmt(alloc, scope, load, spot)?;
        Ok((stmt, spot))
    } else if spot.begins(context, Class::Word("for")) {
        let (stmt, spot) = for_stmt(alloc, scope, load, spot)?;
        Ok((stmt, spot))
    } else {
        let (opened, spot) = open_stmt(context, spot)?;
        Ok((noted(scope, opened)?, spot))
    }
}

/// A statement that is no block and not empty, by its first token.
#[cycle(statements)]
fn worded_stmt<'t, 's>(
    alloc: Global,
    scope: &mut Scope<'s>,
    load: u32,
    spot: Spot<'t, 's>,
) -> Read<'t, 's, Stmt<'s>>
    requires load { load ≤ 257 }
    requires room { weight spot < 2 ^ 32 }
    requires frame { 0 < length scope.old }
    ensures exact { ReadsNamed stmt_tree (λ s. scope.new) (worded_stmt (opened load) (standing scope.old load)) spot.entry result }
    ensures scope { IfOk result (λ x. scope.new ≡ names_behind scope.old (stmt_tree x.0)) }
    ensures lightens { Lightens 4 spot.entry result }
{
    let context = Context {
        alloc,
        scope: &*scope,
        angle: 0,
        load,
    };
    if spot.begins(context, Class::Word("static_assert")) {
        let (stmt, spot) = assert_stmt(context, spot)?;
        Ok((stmt, spot))
    } else if spot.begins(context, Class::Word("break")) {
        let (stmt, spot) = break_stmt(context, spot)?;
        Ok((stmt, spot))
    } else if spot.begins(context, Class::Word("continue")) {
        let (stmt, spot) = continue_stmt(context, spot)?;
        Ok((stmt, spot))
    } else if spot.begins(context, Class::Word("return")) {
        let (stmt, spot) = return_stmt(context, spot)?;
        Ok((stmt, spot))
    } else {
        open_or_holding_stmt(alloc, scope, load, spot)
    }
}

/// A statement, by its first token, within its own construct.
#[cycle(statements)]
#[tactic(auto, unfolding(cx_grammar::specs::Statements::bare_stmt))]
fn bare_stmt<'t, 's>(
    alloc: Global,
    scope: &mut Scope<'s>,
    load: u32,
    spot: Spot<'t, 's>,
) -> Read<'t, 's, Stmt<'s>>
    requires load { load ≤ 257 }
    requires room { weight spot < 2 ^ 32 }
    requires frame { 0 < length scope.old }
    ensures exact { ReadsNamed stmt_tree (λ s. scope.new) (statements.bare_stmt (opened load) (standing scope.old load)) spot.entry result }
    ensures scope { IfOk result (λ x. scope.new ≡ names_behind scope.old (stmt_tree x.0)) }
    ensures lightens { Lightens 4 spot.entry result }
{
    let context = Context {
        alloc,
        scope: &*scope,
        angle: 0,
        load,
    };
    if spot.begins(context, Class::Punct(";")) {
        let (stmt, spot) = empty_stmt(context, spot)?;
        Ok((stmt, spot))
    } else if spot.begins(context, Class::Punct("{")) {
        let (stmt, spot) = block(alloc, scope, load, spot)?;
        Ok((stmt, spot))
    } else {
        worded_stmt(alloc, scope, load, spot)
    }
}

/// A statement, within its own construct.
#[cycle(statements)]
pub(crate) fn statement<'t, 's>(
    alloc: Global,
    scope: &mut Scope<'s>,
    load: u32,
    spot: Spot<'t, 's>,
) -> Read<'t, 's, Stmt<'s>>
    requires load { load ≤ 257 }
    requires room { weight spot < 2 ^ 32 }
    requires frame { 0 < length scope.old }
    ensures exact { ReadsNamed stmt_tree (λ s. scope.new) ((here (standing scope.old load)).bare (standing scope.old load)) spot.entry result }
    ensures scope { IfOk result (λ x. scope.new ≡ names_behind scope.old (stmt_tree x.0)) }
    ensures outer { IfOk result (λ x. left scope.new ≡ left scope.old) }
    ensures depth { IfOk result (λ x. length scope.new ≡ length scope.old) }
    ensures lightens { Lightens 4 spot.entry result }
{
    bare_stmt(alloc, scope, load, spot)
}

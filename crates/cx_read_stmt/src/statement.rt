//! Statements ([stmt.stmt]).

ghost use Rattle.std.specs.Prelude.{◌≡◌, map, Err};
ghost use Rattle.cx_syntax.specs.Productions.{read_closed};
ghost use Rattle.cx_productions.specs.StatementTrees.{StmtTree};
ghost use Rattle.std.specs.Option.{option_map};
ghost use Rattle.cx_trees.specs.Views.{expr_tree};
ghost use Rattle.cx_productions.specs.Units.{unit_levels, statement_levels};
ghost use Rattle.cx_productions.specs.Statements as statements;
ghost use Rattle.cx_statement_trees.specs.StatementViews.{stmt_tree};
ghost use Rattle.cx_syntax.specs.Combinators.{in_scope, one_more_item};
ghost use Rattle.cx_syntax.specs.Contexts.{deeper};
ghost use Rattle.cx_cursor.specs.Reads.{Reads};
ghost use Rattle.cx_read_stmt.specs.Parts.{all_stmts};

use crate::parts::{condition, for_head};
use crate::simple::{assert_stmt, break_stmt, continue_stmt, empty_stmt, open_stmt, return_stmt};
use cx_base::Place;
use cx_cursor::{Class, Cursor, boxed};
use cx_read_expr::flag;
use cx_statement_trees::Stmt;
use cx_syntax::{Context, Stopped};
use cx_tokens::{Punctuator, Word};
use cx_trees::Expr;

/// Why nothing is read where no level is left.
#[tactic(auto, using(crate::proofs::Levels::ended, crate::proofs::Levels::exhausted))]
fn closed(cursor: &Cursor<'_, '_>) -> Stopped
    ensures { read_closed {A = StmtTree} cursor.now.left ≡ Err result }
{
    if cursor.begins_another(Class::Nothing) {
        Stopped::Exhausted
    } else {
        Stopped::Ended
    }
}

/// A statement one level deeper, within its own construct.
#[cycle(statements)]
#[tactic(auto, unfolding(cx_productions::specs::Units::statement_levels))]
fn nested<'s>(
    cursor: &mut Cursor<'_, 's>,
    depth: u32,
    context: Context,
) -> Result<Box<Stmt<'s>>, Stopped>
    ensures { Reads (λ s. stmt_tree s.value) (statement_levels depth context) cursor.old result cursor.new }
{
    if depth == 0 {
        return Err(closed(cursor));
    }
    stmt(cursor, depth - 1, context)
}

/// One statement more of a block.
#[cycle(statements)]
fn one_more<'s>(
    cursor: &mut Cursor<'_, 's>,
    depth: u32,
    so_far: Vec<Stmt<'s>>,
    context: Context,
) -> Result<Vec<Stmt<'s>>, Stopped>
    ensures { Reads all_stmts (one_more_item (statement_levels depth (deeper context)) (all_stmts so_far.entry)) cursor.old result cursor.new }
{
    let more = nested(cursor, depth, context.deeper())?;
    let mut all = so_far;
    all.push(Box::into_inner(more))?;
    Ok(all)
}

/// Statements up to the brace that closes them.
#[cycle(statements)]
#[tactic(auto, unfolding(cx_productions::specs::Statements::statements))]
fn statements<'s>(
    cursor: &mut Cursor<'_, 's>,
    depth: u32,
    context: Context,
) -> Result<Vec<Stmt<'s>>, Stopped>
    ensures { Reads all_stmts (statements.statements (unit_levels depth) context) cursor.old result cursor.new }
{
    let mut all: Vec<Stmt<'s>> = Vec::new(cursor.alloc());
    'turns: while cursor.begins_another(Class::Punct(Punctuator::RightBrace)) {
        all = one_more(cursor, depth, all, context)?;
    }
    Ok(all)
}

/// Statements in a scope of their own.
#[cycle(statements)]
fn scoped_statements<'s>(
    cursor: &mut Cursor<'_, 's>,
    depth: u32,
    context: Context,
) -> Result<Vec<Stmt<'s>>, Stopped>
    ensures { Reads all_stmts (in_scope (statements.statements (unit_levels depth) context)) cursor.old result cursor.new }
{
    cursor.enter()?;
    let all = statements(cursor, depth, context)?;
    cursor.leave();
    Ok(all)
}

/// `"{" { stmt } "}"` ([stmt.block]): its names are forgotten after it.
#[cycle(statements)]
#[tactic(auto, unfolding(cx_productions::specs::Statements::block))]
pub fn block<'s>(
    cursor: &mut Cursor<'_, 's>,
    depth: u32,
    context: Context,
) -> Result<Box<Stmt<'s>>, Stopped>
    ensures { Reads (λ s. stmt_tree s.value) (statements.block (unit_levels depth) context) cursor.old result cursor.new }
{
    let opening = cursor.take(context.deeper(), Class::Punct(Punctuator::LeftBrace))?;
    let statements = scoped_statements(cursor, depth, context.inside())?;
    cursor.take(context.deeper(), Class::Punct(Punctuator::RightBrace))?;
    let node = cursor.number()?;
    boxed(
        cursor.alloc(),
        Stmt::Block {
            node,
            at: opening.token.at,
            statements,
        },
    )
}

/// A statement that is a part of another one: its names are forgotten after it.
#[cycle(statements)]
#[tactic(auto, unfolding(cx_productions::specs::Statements::substatement))]
fn substatement<'s>(
    cursor: &mut Cursor<'_, 's>,
    depth: u32,
    context: Context,
) -> Result<Box<Stmt<'s>>, Stopped>
    ensures { Reads (λ s. stmt_tree s.value) (statements.substatement (unit_levels depth) context) cursor.old result cursor.new }
{
    cursor.enter()?;
    let part = nested(cursor, depth, context.deeper())?;
    cursor.leave();
    Ok(part)
}

/// `[ "else" stmt ]`: an `else` belongs to the nearest `if`.
#[cycle(statements)]
#[tactic(auto, unfolding(cx_productions::specs::Statements::alternative))]
fn alternative<'s>(
    cursor: &mut Cursor<'_, 's>,
    depth: u32,
    context: Context,
    at: Place,
    is_constexpr: bool,
    condition: Box<Expr<'s>>,
    then: Box<Stmt<'s>>,
) -> Result<Box<Stmt<'s>>, Stopped>
    ensures { Reads (λ s. stmt_tree s.value) (statements.alternative (unit_levels depth) context at is_constexpr (expr_tree condition.entry.value) (stmt_tree then.entry.value)) cursor.old result cursor.new }
{
    let mut otherwise = None;
    if cursor.begins(Class::Word(Word::Else)) {
        cursor.take(context, Class::Word(Word::Else))?;
        otherwise = Some(substatement(cursor, depth, context)?);
    }
    let node = cursor.number()?;
    boxed(
        cursor.alloc(),
        Stmt::If {
            node,
            at,
            is_constexpr,
            condition,
            then,
            otherwise,
        },
    )
}

/// `"if" [ "constexpr" ] condition stmt [ "else" stmt ]` ([stmt.if])
#[cycle(statements)]
#[tactic(auto, unfolding(cx_productions::specs::Statements::if_stmt))]
fn if_stmt<'s>(
    cursor: &mut Cursor<'_, 's>,
    depth: u32,
    context: Context,
) -> Result<Box<Stmt<'s>>, Stopped>
    ensures { Reads (λ s. stmt_tree s.value) (statements.if_stmt (unit_levels depth) context) cursor.old result cursor.new }
{
    let start = cursor.take(context, Class::Word(Word::If))?;
    let is_constexpr = flag(cursor, Class::Word(Word::Constexpr), context)?;
    let condition = condition(cursor, depth, context)?;
    let then = substatement(cursor, depth, context)?;
    alternative(
        cursor,
        depth,
        context,
        start.token.at,
        is_constexpr,
        condition,
        then,
    )
}

/// `"while" condition stmt` ([stmt.while])
#[cycle(statements)]
#[tactic(auto, unfolding(cx_productions::specs::Statements::while_stmt))]
fn while_stmt<'s>(
    cursor: &mut Cursor<'_, 's>,
    depth: u32,
    context: Context,
) -> Result<Box<Stmt<'s>>, Stopped>
    ensures { Reads (λ s. stmt_tree s.value) (statements.while_stmt (unit_levels depth) context) cursor.old result cursor.new }
{
    let start = cursor.take(context, Class::Word(Word::While))?;
    let condition = condition(cursor, depth, context)?;
    let body = substatement(cursor, depth, context)?;
    let node = cursor.number()?;
    boxed(
        cursor.alloc(),
        Stmt::While {
            node,
            at: start.token.at,
            condition,
            body,
        },
    )
}

/// `"(" head ")" stmt`
#[cycle(statements)]
#[tactic(auto, unfolding(cx_productions::specs::Statements::for_parts))]
fn for_parts<'s>(
    cursor: &mut Cursor<'_, 's>,
    depth: u32,
    context: Context,
    at: Place,
) -> Result<Box<Stmt<'s>>, Stopped>
    ensures { Reads (λ s. stmt_tree s.value) (statements.for_parts (unit_levels depth) context at) cursor.old result cursor.new }
{
    cursor.take(context.deeper(), Class::Punct(Punctuator::LeftParenthesis))?;
    let head = for_head(cursor, depth, context.inside())?;
    cursor.take(context.deeper(), Class::Punct(Punctuator::RightParenthesis))?;
    let body = substatement(cursor, depth, context)?;
    let node = cursor.number()?;
    boxed(
        cursor.alloc(),
        Stmt::For {
            node,
            at,
            head,
            body,
        },
    )
}

/// `"for" "(" head ")" stmt` ([stmt.for]): the names of its head are forgotten after it.
#[cycle(statements)]
#[tactic(auto, unfolding(cx_productions::specs::Statements::for_stmt))]
fn for_stmt<'s>(
    cursor: &mut Cursor<'_, 's>,
    depth: u32,
    context: Context,
) -> Result<Box<Stmt<'s>>, Stopped>
    ensures { Reads (λ s. stmt_tree s.value) (statements.for_stmt (unit_levels depth) context) cursor.old result cursor.new }
{
    let start = cursor.take(context, Class::Word(Word::For))?;
    cursor.enter()?;
    let whole = for_parts(cursor, depth, context, start.token.at)?;
    cursor.leave();
    Ok(whole)
}

/// A statement, within its own construct.
#[cycle(statements)]
#[tactic(auto, unfolding(cx_productions::specs::Statements::stmt))]
pub fn stmt<'s>(
    cursor: &mut Cursor<'_, 's>,
    depth: u32,
    context: Context,
) -> Result<Box<Stmt<'s>>, Stopped>
    ensures { Reads (λ s. stmt_tree s.value) (statements.stmt (unit_levels depth) context) cursor.old result cursor.new }
{
    if cursor.begins(Class::Punct(Punctuator::Semicolon)) {
        empty_stmt(cursor, context)
    } else if cursor.begins(Class::Punct(Punctuator::LeftBrace)) {
        block(cursor, depth, context)
    } else if cursor.begins(Class::Word(Word::StaticAssert)) {
        assert_stmt(cursor, depth, context)
    } else if cursor.begins(Class::Word(Word::Break)) {
        break_stmt(cursor, context)
    } else if cursor.begins(Class::Word(Word::Continue)) {
        continue_stmt(cursor, context)
    } else if cursor.begins(Class::Word(Word::Return)) {
        return_stmt(cursor, depth, context)
    } else if cursor.begins(Class::Word(Word::If)) {
        if_stmt(cursor, depth, context)
    } else if cursor.begins(Class::Word(Word::While)) {
        while_stmt(cursor, depth, context)
    } else if cursor.begins(Class::Word(Word::For)) {
        for_stmt(cursor, depth, context)
    } else {
        open_stmt(cursor, depth, context)
    }
}

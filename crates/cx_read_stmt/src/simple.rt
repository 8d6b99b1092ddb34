//! Statements in which no other statement stands.

ghost use Rattle.std.specs.Prelude.{◌≡◌};
ghost use Rattle.cx_productions.specs.Levels.{levels};
ghost use Rattle.cx_productions.specs.Statements as statements;
ghost use Rattle.cx_productions.specs.StatementTrees as plain;
ghost use Rattle.cx_statement_trees.specs.StatementViews.{opening_tree, stmt_tree};
ghost use Rattle.cx_tokens.specs.declared.word.Word.TheVariants as words;
ghost use Rattle.cx_cursor.specs.Reads.{Reads};

use crate::openings::opening;
use crate::parts::{assertion, expr_until};
use cx_cursor::{Class, Cursor, boxed};
use cx_statement_trees::{Opening, Stmt};
use cx_syntax::{Context, Stopped};
use cx_tokens::{Punctuator, Word};

/// A variable is a statement, and an expression is a node of a statement besides.
#[tactic(auto, unfolding(cx_productions::specs::Statements::stmt_of))]
fn stmt_of<'s>(cursor: &mut Cursor<'_, 's>, opening: Opening<'s>) -> Result<Box<Stmt<'s>>, Stopped>
    ensures { Reads (λ s. stmt_tree s.value) (statements.stmt_of (opening_tree opening.entry)) cursor.old result cursor.new }
{
    match opening {
        Opening::Variable(variable) => boxed(cursor.alloc(), Stmt::Variable(variable)),
        Opening::Expression(expr) => {
            let node = cursor.number()?;
            let at = expr.at();
            boxed(cursor.alloc(), Stmt::Expression { node, at, expr })
        }
    }
}

/// A variable or an expression.
#[tactic(auto, unfolding(cx_productions::specs::Statements::open_stmt))]
pub(crate) fn open_stmt<'s>(
    cursor: &mut Cursor<'_, 's>,
    depth: u32,
    context: Context,
) -> Result<Box<Stmt<'s>>, Stopped>
    ensures { Reads (λ s. stmt_tree s.value) (statements.open_stmt (levels depth) context) cursor.old result cursor.new }
{
    let opening = opening(cursor, depth, context)?;
    stmt_of(cursor, opening)
}

/// `"return" [ expr ] ";"` ([stmt.return])
#[tactic(auto, unfolding(cx_productions::specs::Statements::return_stmt))]
pub(crate) fn return_stmt<'s>(
    cursor: &mut Cursor<'_, 's>,
    depth: u32,
    context: Context,
) -> Result<Box<Stmt<'s>>, Stopped>
    ensures { Reads (λ s. stmt_tree s.value) (statements.return_stmt (levels depth) context) cursor.old result cursor.new }
{
    let start = cursor.take(context, Class::Word(Word::Return))?;
    let value = expr_until(cursor, depth, Punctuator::Semicolon, context)?;
    cursor.take(context, Class::Punct(Punctuator::Semicolon))?;
    let node = cursor.number()?;
    boxed(
        cursor.alloc(),
        Stmt::Return {
            node,
            at: start.token.at,
            value,
        },
    )
}

/// `"break" ";"` ([stmt.break])
#[tactic(auto, unfolding(cx_productions::specs::Statements::jump))]
pub(crate) fn break_stmt<'s>(
    cursor: &mut Cursor<'_, 's>,
    context: Context,
) -> Result<Box<Stmt<'s>>, Stopped>
    ensures { Reads (λ s. stmt_tree s.value) (statements.jump words.Break plain.Break context) cursor.old result cursor.new }
{
    let start = cursor.take(context, Class::Word(Word::Break))?;
    cursor.take(context, Class::Punct(Punctuator::Semicolon))?;
    let node = cursor.number()?;
    boxed(
        cursor.alloc(),
        Stmt::Break {
            node,
            at: start.token.at,
        },
    )
}

/// `"continue" ";"` ([stmt.cont])
#[tactic(auto, unfolding(cx_productions::specs::Statements::jump))]
pub(crate) fn continue_stmt<'s>(
    cursor: &mut Cursor<'_, 's>,
    context: Context,
) -> Result<Box<Stmt<'s>>, Stopped>
    ensures { Reads (λ s. stmt_tree s.value) (statements.jump words.Continue plain.Continue context) cursor.old result cursor.new }
{
    let start = cursor.take(context, Class::Word(Word::Continue))?;
    cursor.take(context, Class::Punct(Punctuator::Semicolon))?;
    let node = cursor.number()?;
    boxed(
        cursor.alloc(),
        Stmt::Continue {
            node,
            at: start.token.at,
        },
    )
}

/// `";"` ([stmt.expr])
#[tactic(auto, unfolding(cx_productions::specs::Statements::empty_stmt))]
pub(crate) fn empty_stmt<'s>(
    cursor: &mut Cursor<'_, 's>,
    context: Context,
) -> Result<Box<Stmt<'s>>, Stopped>
    ensures { Reads (λ s. stmt_tree s.value) (statements.empty_stmt context) cursor.old result cursor.new }
{
    let token = cursor.take(context, Class::Punct(Punctuator::Semicolon))?;
    let node = cursor.number()?;
    boxed(
        cursor.alloc(),
        Stmt::Empty {
            node,
            at: token.token.at,
        },
    )
}

/// A `static_assert` ([stmt.dcl])
#[tactic(auto, unfolding(cx_productions::specs::Statements::assert_stmt))]
pub(crate) fn assert_stmt<'s>(
    cursor: &mut Cursor<'_, 's>,
    depth: u32,
    context: Context,
) -> Result<Box<Stmt<'s>>, Stopped>
    ensures { Reads (λ s. stmt_tree s.value) (statements.assert_stmt (levels depth) context) cursor.old result cursor.new }
{
    let assertion = assertion(cursor, depth, context)?;
    boxed(cursor.alloc(), Stmt::StaticAssert(assertion))
}

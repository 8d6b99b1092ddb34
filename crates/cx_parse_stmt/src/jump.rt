//! Statements of one piece: `;`, `break`, `continue` and `return` ([stmt.jump]), and `static_assert` ([dcl.pre]).

ghost use Rattle.std.specs.Prelude.{◌≡◌, ◌<◌, ◌≤◌, ◌+◌, ◌^◌, codes, true, false, map, None, Some, IfOk};
ghost use Rattle.std.specs.Option.{option_map};
ghost use Rattle.cx_tree.specs.Trees.{expr_tree};
ghost use Rattle.cx_tree.specs.Statements.{Break, Continue};
ghost use Rattle.cx_statements.specs.StatementViews.{assert_tree, stmt_tree};
ghost use Rattle.cx_grammar.specs.Statements as statements;
ghost use Rattle.cx_spots.specs.Spots.{Reads, ReadsNode, Lightens, weight, context_of, below};
ghost use Rattle.cx_parse_stmt.specs.Parts.{message, assert_stmt};
ghost use Rattle.cx_parse_stmt.specs.Within.{ReadsNamed};
ghost use Rattle.cx_parse_stmt.specs.Views.{names_behind};

use crate::text::string;
use cx_parse_expr::read_expr;
use cx_spots::{Class, Context, Read, Spot};
use cx_statements::{Assertion, Stmt};
use cx_tree::Expr;

/// `;` alone ([stmt.expr]).
#[tactic(auto, unfolding(cx_grammar::specs::Statements::empty_stmt))]
pub(crate) fn empty_stmt<'t, 's>(
    context: Context<'_, 's>,
    spot: Spot<'t, 's>,
) -> Read<'t, 's, Stmt<'s>>
    requires load { context.load ≤ 257 }
    requires room { weight spot < 2 ^ 32 }
    ensures exact { ReadsNode stmt_tree (statements.empty_stmt (context_of context.entry)) spot.entry result }
    ensures nameless { IfOk result (λ x. names_behind context.entry.scope.now (stmt_tree x.0) ≡ context.entry.scope.now) }
    ensures lightens { Lightens 4 spot.entry result }
{
    let (semicolon, spot) = spot.take(context, context.load, Class::Punct(";"))?;
    let (node, spot) = spot.number();
    Ok((
        Stmt::Empty {
            node,
            at: semicolon.token.at,
        },
        spot,
    ))
}

/// `break` ([stmt.break]).
#[tactic(auto, unfolding(cx_grammar::specs::Statements::jump))]
pub(crate) fn break_stmt<'t, 's>(
    context: Context<'_, 's>,
    spot: Spot<'t, 's>,
) -> Read<'t, 's, Stmt<'s>>
    requires load { context.load ≤ 257 }
    requires room { weight spot < 2 ^ 32 }
    ensures exact { ReadsNode stmt_tree (statements.jump (codes "break") Break (context_of context.entry)) spot.entry result }
    ensures nameless { IfOk result (λ x. names_behind context.entry.scope.now (stmt_tree x.0) ≡ context.entry.scope.now) }
    ensures lightens { Lightens 4 spot.entry result }
{
    let (word, spot) = spot.take(context, context.load, Class::Word("break"))?;
    let (_, spot) = spot.take(context, context.load, Class::Punct(";"))?;
    let (node, spot) = spot.number();
    Ok((
        Stmt::Break {
            node,
            at: word.token.at,
        },
        spot,
    ))
}

/// `continue` ([stmt.cont]).
#[tactic(auto, unfolding(cx_grammar::specs::Statements::jump))]
pub(crate) fn continue_stmt<'t, 's>(
    context: Context<'_, 's>,
    spot: Spot<'t, 's>,
) -> Read<'t, 's, Stmt<'s>>
    requires load { context.load ≤ 257 }
    requires room { weight spot < 2 ^ 32 }
    ensures exact { ReadsNode stmt_tree (statements.jump (codes "continue") Continue (context_of context.entry)) spot.entry result }
    ensures nameless { IfOk result (λ x. names_behind context.entry.scope.now (stmt_tree x.0) ≡ context.entry.scope.now) }
    ensures lightens { Lightens 4 spot.entry result }
{
    let (word, spot) = spot.take(context, context.load, Class::Word("continue"))?;
    let (_, spot) = spot.take(context, context.load, Class::Punct(";"))?;
    let (node, spot) = spot.number();
    Ok((
        Stmt::Continue {
            node,
            at: word.token.at,
        },
        spot,
    ))
}

/// An expression up to what stands behind it, or none.
#[tactic(auto, unfolding(cx_grammar::specs::Statements::maybe_expr))]
pub(crate) fn maybe_expr<'t, 's>(
    context: Context<'_, 's>,
    behind: &str,
    spot: Spot<'t, 's>,
) -> Read<'t, 's, Option<Expr<'s>>>
    requires load { context.load ≤ 257 }
    requires room { weight spot < 2 ^ 32 }
    ensures exact { ReadsNode (option_map expr_tree) (statements.maybe_expr behind.now (below (context_of context.entry)) (context_of context.entry)) spot.entry result }
    ensures lightens { Lightens 0 spot.entry result }
{
    if spot.begins(context, Class::Punct(behind)) {
        return Ok((None, spot));
    }
    let (expr, spot) = read_expr(context, spot)?;
    Ok((Some(expr), spot))
}

/// `return` with a value or none ([stmt.return]).
#[tactic(auto, unfolding(cx_grammar::specs::Statements::return_stmt))]
pub(crate) fn return_stmt<'t, 's>(
    context: Context<'_, 's>,
    spot: Spot<'t, 's>,
) -> Read<'t, 's, Stmt<'s>>
    requires load { context.load ≤ 257 }
    requires room { weight spot < 2 ^ 32 }
    ensures exact { ReadsNode stmt_tree (statements.return_stmt (below (context_of context.entry)) (context_of context.entry)) spot.entry result }
    ensures nameless { IfOk result (λ x. names_behind context.entry.scope.now (stmt_tree x.0) ≡ context.entry.scope.now) }
    ensures lightens { Lightens 4 spot.entry result }
{
    let (word, spot) = spot.take(context, context.load, Class::Word("return"))?;
    let (value, spot) = maybe_expr(context, ";", spot)?;
    let (_, spot) = spot.take(context, context.load, Class::Punct(";"))?;
    let (node, spot) = spot.number();
    Ok((
        Stmt::Return {
            node,
            at: word.token.at,
            value,
        },
        spot,
    ))
}

/// A condition in parentheses ([stmt.select]).
#[tactic(auto, unfolding(cx_grammar::specs::Statements::condition))]
pub(crate) fn condition<'t, 's>(
    context: Context<'_, 's>,
    spot: Spot<'t, 's>,
) -> Read<'t, 's, Expr<'s>>
    requires load { context.load ≤ 257 }
    requires room { weight spot < 2 ^ 32 }
    ensures exact { ReadsNode expr_tree (statements.condition (below (context_of context.entry)) (context_of context.entry)) spot.entry result }
    ensures lightens { Lightens 4 spot.entry result }
{
    let (_, spot) = spot.take(context, context.load + 1, Class::Punct("("))?;
    let (condition, spot) = read_expr(context.inside(), spot)?;
    let (_, spot) = spot.take(context, context.load + 1, Class::Punct(")"))?;
    Ok((condition, spot))
}

/// The text of a `static_assert`, or none.
fn message<'t, 's>(context: Context<'_, 's>, spot: Spot<'t, 's>) -> Read<'t, 's, Option<&'s str>>
    requires load { context.load ≤ 257 }
    ensures exact { Reads (option_map (λ text. text.now)) (message (context_of context.entry)) spot.entry result }
    ensures lightens { Lightens 0 spot.entry result }
    ensures next { IfOk result (λ x. x.1.next ≡ spot.entry.next) }
{
    if !spot.begins(context, Class::Punct(",")) {
        return Ok((None, spot));
    }
    let (_, spot) = spot.take(context, context.load + 1, Class::Punct(","))?;
    let (text, spot) = string(context, context.load + 1, spot)?;
    Ok((Some(text.token.text), spot))
}

/// Reads `static_assert` ([dcl.pre]).
#[tactic(auto, unfolding(cx_grammar::specs::Statements::assertion))]
pub fn read_assertion<'t, 's>(
    context: Context<'_, 's>,
    spot: Spot<'t, 's>,
) -> Read<'t, 's, Assertion<'s>>
    requires load { context.load ≤ 257 }
    requires room { weight spot < 2 ^ 32 }
    ensures exact { ReadsNode assert_tree (statements.assertion (below (context_of context.entry)) (context_of context.entry)) spot.entry result }
    ensures lightens { Lightens 4 spot.entry result }
{
    let (word, spot) = spot.take(context, context.load, Class::Word("static_assert"))?;
    let (_, spot) = spot.take(context, context.load + 1, Class::Punct("("))?;
    let (condition, spot) = read_expr(context.inside(), spot)?;
    let (message, spot) = message(context, spot)?;
    let (_, spot) = spot.take(context, context.load + 1, Class::Punct(")"))?;
    let (_, spot) = spot.take(context, context.load, Class::Punct(";"))?;
    let (node, spot) = spot.number();
    Ok((
        Assertion {
            node,
            at: word.token.at,
            condition,
            message,
        },
        spot,
    ))
}

/// `static_assert` as a statement ([stmt.dcl]).
pub(crate) fn assert_stmt<'t, 's>(
    context: Context<'_, 's>,
    spot: Spot<'t, 's>,
) -> Read<'t, 's, Stmt<'s>>
    requires load { context.load ≤ 257 }
    requires room { weight spot < 2 ^ 32 }
    ensures exact { ReadsNamed stmt_tree (λ s. context.entry.scope.now) (assert_stmt (below (context_of context.entry)) (context_of context.entry)) spot.entry result }
    ensures nameless { IfOk result (λ x. names_behind context.entry.scope.now (stmt_tree x.0) ≡ context.entry.scope.now) }
    ensures lightens { Lightens 4 spot.entry result }
{
    let (assertion, spot) = read_assertion(context, spot)?;
    Ok((Stmt::StaticAssert(assertion), spot))
}

//! Parsing from an index of a unit's tokens on.

ghost use Rattle.std.specs.Prelude.{◌≡◌, ◌<◌, ◌≤◌, ◌+◌, ◌*◌, ◌^◌, length, map, IfOk};
ghost use Rattle.cx_lexer.specs.Division.{EndsOnce, AreSpelled};
ghost use Rattle.cx_lexer.specs.Tokens.{token_tree};
ghost use Rattle.cx_grammar.specs.Statements.{stmt};
ghost use Rattle.cx_grammar.specs.Expressions.{no_requires};
ghost use Rattle.cx_grammar.specs.Declarations.{unit_levels};
ghost use Rattle.cx_statements.specs.StatementViews.{stmt_tree};
ghost use Rattle.cx_parse_stmt.specs.Parses.{Parses};
ghost use Rattle.cx_parse_stmt.specs.Views.{names_behind};

use crate::calls::read_stmt;
use cx_base::Stop;
use cx_grammar::laws_of_statements;
use cx_lexer::Token;
use cx_parse_expr::Ids;
use cx_scope::Scope;
use cx_spots::{index_of, spelled_tokens, spot_at};
use cx_statements::Stmt;
use std::alloc::Global;

/// Parses the statement ([stmt.stmt]) that begins at an index of a unit's tokens, so many constructs being open, as far
/// as it goes. Answers it with the index behind it; its nodes are numbered from `ids.next` on, which is then the number
/// of the next one. The name of a variable that is the whole statement is then noted in the innermost scope; else the
/// scope is as before.
///
/// Refuses at the first token with which the tokens from the index on begin no statement: as Unsupported where the
/// language never has it, and at the word that begins a requires-expression, else as Syntax. Before that token it
/// refuses with the limit Depth at the first one at which more than 256 constructs are open. Else it refuses for want
/// of memory alone. Nothing is said of the scope where the statement is refused.
pub fn parse_stmt<'s>(
    alloc: Global,
    tokens: &[Token<'s>],
    scope: &mut Scope<'s>,
    from: usize,
    load: u32,
    ids: &mut Ids,
) -> Result<(Stmt<'s>, usize), Stop>
    requires from { from < length tokens.now }
    requires ended { EndsOnce (map token_tree tokens.now) }
    requires spelled { AreSpelled (map token_tree tokens.now) }
    requires load { load ≤ 256 }
    requires room { ids.old.next + 16 * length tokens.now < 2 ^ 32 }
    requires frame { 0 < length scope.old }
    ensures exact { Parses stmt_tree (λ level. stmt (unit_levels no_requires level) (record { names = scope.old; angle = 0; load = load }) ids.old.next) (map token_tree tokens.now) from ids.new.next scope.new result }
    ensures within { IfOk result (λ x. x.1 ≤ length tokens.now) }
    ensures scope { IfOk result (λ x. scope.new ≡ names_behind scope.old (stmt_tree x.0)) }
{
    laws_of_statements();
    spelled_tokens();
    let spot = spot_at(tokens, from, ids.next);
    let (stmt, behind) = read_stmt(alloc, scope, load, spot)?;
    ids.next = behind.next;
    Ok((stmt, index_of(tokens, behind)))
}

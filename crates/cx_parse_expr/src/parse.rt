//! Parsing from an index of a unit's tokens on.

ghost use Rattle.std.specs.Prelude.{◌≡◌, ◌<◌, ◌≤◌, ◌+◌, ◌*◌, ◌^◌, length, map, IfOk};
ghost use Rattle.cx_lexer.specs.Division.{EndsOnce, AreSpelled};
ghost use Rattle.cx_lexer.specs.Tokens.{token_tree};
ghost use Rattle.cx_tree.specs.Trees.{expr_tree, type_tree};
ghost use Rattle.cx_grammar.specs.Expressions.{expr, clause, levels, no_requires};
ghost use Rattle.cx_grammar.specs.Types.{type_id};
ghost use Rattle.cx_spots.specs.Spots.{context_of};
ghost use Rattle.cx_parse_expr.specs.Parses.{Parses};

use crate::calls::{read_clause, read_expr, read_type};
use cx_base::Stop;
use cx_grammar::{laws_of_clauses, laws_of_expressions, laws_of_types};
use cx_lexer::Token;
use cx_scope::Scope;
use cx_spots::{Context, index_of, spelled_tokens, spot_at};
use cx_tree::{Expr, TypeSyn};
use std::alloc::Global;

/// The number of the next node.
#[derive(Clone, Copy, Debug)]
pub struct Ids {
    pub next: u32,
}

/// Where so many constructs are open, and no list of template arguments.
fn context<'c, 's>(alloc: Global, scope: &'c Scope<'s>, load: u32) -> Context<'c, 's>
    requires { load ≤ 257 }
    ensures same { context_of result ≡ record { names = scope.now; angle = 0; load = load } }
    ensures load { result.load ≡ load }
{
    Context {
        alloc,
        scope,
        angle: 0,
        load,
    }
}

/// Parses the expression ([expr]) that begins at an index of a unit's tokens, so many constructs being open, as far as it
/// goes. Answers it with the index behind it; its nodes are numbered from `ids.next` on, which is then the number of the
/// next one.
///
/// Refuses at the first token with which the tokens from the index on begin no expression: as Unsupported where the
/// language never has it, and at the word that begins a requires-expression, else as Syntax. Before that token it
/// refuses with the limit Depth at the first one at which more than 256 constructs are open. Else it refuses for want
/// of memory alone.
pub fn parse_expr<'s>(
    alloc: Global,
    tokens: &[Token<'s>],
    scope: &mut Scope<'s>,
    from: usize,
    load: u32,
    ids: &mut Ids,
) -> Result<(Expr<'s>, usize), Stop>
    requires from { from < length tokens.now }
    requires ended { EndsOnce (map token_tree tokens.now) }
    requires spelled { AreSpelled (map token_tree tokens.now) }
    requires load { load ≤ 257 }
    requires room { ids.old.next + 16 * length tokens.now < 2 ^ 32 }
    ensures exact { Parses expr_tree (λ level. expr (levels no_requires level) (record { names = scope.old; angle = 0; load = load }) ids.old.next) (map token_tree tokens.now) from ids.new.next result }
    ensures within { IfOk result (λ x. x.1 ≤ length tokens.now) }
    ensures scope { scope.new ≡ scope.old }
{
    laws_of_expressions();
    spelled_tokens();
    let spot = spot_at(tokens, from, ids.next);
    let (expr, behind) = read_expr(context(alloc, scope, load), spot)?;
    ids.next = behind.next;
    Ok((expr, index_of(tokens, behind)))
}

/// Parses the type ([dcl.type]) that begins at an index of a unit's tokens, so many constructs being open, as far as it
/// goes. Answers it with the index behind it; its nodes are numbered from `ids.next` on, which is then the number of the
/// next one.
///
/// Refuses at the first token with which the tokens from the index on begin no type: as Unsupported where the
/// language never has it, and at the word that begins a requires-expression, else as Syntax. Before that token it
/// refuses with the limit Depth at the first one at which more than 256 constructs are open. Else it refuses for want
/// of memory alone.
pub fn parse_type<'s>(
    alloc: Global,
    tokens: &[Token<'s>],
    scope: &mut Scope<'s>,
    from: usize,
    load: u32,
    ids: &mut Ids,
) -> Result<(TypeSyn<'s>, usize), Stop>
    requires from { from < length tokens.now }
    requires ended { EndsOnce (map token_tree tokens.now) }
    requires spelled { AreSpelled (map token_tree tokens.now) }
    requires load { load ≤ 257 }
    requires room { ids.old.next + 16 * length tokens.now < 2 ^ 32 }
    ensures exact { Parses type_tree (λ level. type_id (levels no_requires level) (record { names = scope.old; angle = 0; load = load }) ids.old.next) (map token_tree tokens.now) from ids.new.next result }
    ensures within { IfOk result (λ x. x.1 ≤ length tokens.now) }
    ensures scope { scope.new ≡ scope.old }
{
    laws_of_types();
    spelled_tokens();
    let spot = spot_at(tokens, from, ids.next);
    let (syn, behind) = read_type(context(alloc, scope, load), spot)?;
    ids.next = behind.next;
    Ok((syn, index_of(tokens, behind)))
}

/// Parses the clause of a requires ([temp.pre]) that begins at an index of a unit's tokens, so many constructs being open, as far as it
/// goes. Answers it with the index behind it; its nodes are numbered from `ids.next` on, which is then the number of the
/// next one.
///
/// Refuses at the first token with which the tokens from the index on begin no clause: as Unsupported where the
/// language never has it, and at the word that begins a requires-expression, else as Syntax. Before that token it
/// refuses with the limit Depth at the first one at which more than 256 constructs are open. Else it refuses for want
/// of memory alone.
pub fn parse_clause<'s>(
    alloc: Global,
    tokens: &[Token<'s>],
    scope: &mut Scope<'s>,
    from: usize,
    load: u32,
    ids: &mut Ids,
) -> Result<(Expr<'s>, usize), Stop>
    requires from { from < length tokens.now }
    requires ended { EndsOnce (map token_tree tokens.now) }
    requires spelled { AreSpelled (map token_tree tokens.now) }
    requires load { load ≤ 257 }
    requires room { ids.old.next + 16 * length tokens.now < 2 ^ 32 }
    ensures exact { Parses expr_tree (λ level. clause (levels no_requires level) (record { names = scope.old; angle = 0; load = load }) ids.old.next) (map token_tree tokens.now) from ids.new.next result }
    ensures within { IfOk result (λ x. x.1 ≤ length tokens.now) }
    ensures scope { scope.new ≡ scope.old }
{
    laws_of_clauses();
    spelled_tokens();
    let spot = spot_at(tokens, from, ids.next);
    let (clause, behind) = read_clause(context(alloc, scope, load), spot)?;
    ids.next = behind.next;
    Ok((clause, index_of(tokens, behind)))
}

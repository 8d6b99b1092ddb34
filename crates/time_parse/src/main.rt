//! Reads expressions, each with `;` behind it, and counts them and their nodes.
#![tactic(auto)]

ghost use Rattle.std.specs.Prelude.{map};
ghost use Rattle.cx_lexer.specs.Division.{EndsOnce, AreSpelled};
ghost use Rattle.cx_lexer.specs.Tokens.{token_tree};

use cx_lexer::{Token, TokenKind, lex, one_division};
use cx_parse_expr::{Ids, parse_expr};
use cx_scope::{NameKind, Scope};
use std::alloc::Global;
use std::io::Read;

/// How many expressions and nodes there are.
#[derive(Clone, Copy)]
struct Counts {
    expressions: u64,
    nodes: u64,
}

/// A scope with a type, a class template, a function template and a concept.
fn scope<'s>(alloc: Global) -> Option<Scope<'s>> {
    let mut scope = Scope::new(alloc);
    scope.enter().ok()?;
    scope.note("T", NameKind::TypeName).ok()?;
    scope.note("Box", NameKind::ClassTemplate).ok()?;
    scope.note("make", NameKind::FunctionTemplate).ok()?;
    scope.note("Small", NameKind::Concept).ok()?;
    Some(scope)
}

/// The counts of tokens that are expressions, each with `;` behind it.
fn count_tokens(alloc: Global, tokens: &[Token<'_>]) -> Option<Counts>
    requires ended { EndsOnce (map token_tree tokens.now) }
    requires spelled { AreSpelled (map token_tree tokens.now) }
{
    if tokens.len() > 100000000 {
        return None;
    }
    let mut scope = scope(alloc)?;
    let mut counts = Counts {
        expressions: 0,
        nodes: 0,
    };
    let mut from = 0;
    for _ in 0..tokens.len() {
        if tokens.get(from)?.kind == TokenKind::End {
            return Some(counts);
        }
        let mut ids = Ids { next: 0 };
        let (_, behind) = parse_expr(alloc, tokens, &mut scope, from, 0, &mut ids).ok()?;
        if tokens.get(behind)?.text != ";" {
            return None;
        }
        from = behind + 1;
        counts.expressions = counts.expressions.saturating_add(1);
        counts.nodes = counts.nodes.saturating_add(u64::from(ids.next));
    }
    None
}

/// The counts of a text of expressions, if it is one and is no longer than a unit may be.
fn count(alloc: Global, text: &[u8]) -> Option<Counts> {
    if text.len() > 4194304 {
        return None;
    }
    one_division();
    let tokens = lex(alloc, text).ok()?;
    count_tokens(alloc, tokens.as_slice())
}

fn main(rt: HostRuntime) -> anyhow::Result<()> {
    let mut text = Vec::new(rt.alloc());
    rt.stdin().read_to_end(&mut text)?;
    match count(rt.alloc(), &text) {
        Some(counts) => println!(rt;
            "{} expressions, {} nodes",
            counts.expressions, counts.nodes
        )?,
        None => println!(rt; "no expressions")?,
    }
    Ok(())
}

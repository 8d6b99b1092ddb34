//! What the parsers answer on a row's text.

use crate::printer::write_tree;
use crate::row::{Production, Row};
use cx_base::Stop;
use cx_lexer::{lex, one_division};
use cx_parse_expr::{Ids, parse_clause, parse_expr, parse_type};
use cx_scope::{NameKind, Scope};
use cx_tree::TemplateArgument;
use std::alloc::{AllocError, Global};

/// A scope with types T and U, class templates Box and Pair, function templates make and get, concepts Small and Same,
/// a function run, and a variable value. Other names are not declared.
fn scope<'s>(alloc: Global) -> Result<Scope<'s>, Stop> {
    let mut scope = Scope::new(alloc);
    scope.enter()?;
    scope.note("T", NameKind::TypeName)?;
    scope.note("U", NameKind::TypeName)?;
    scope.note("Box", NameKind::ClassTemplate)?;
    scope.note("Pair", NameKind::ClassTemplate)?;
    scope.note("make", NameKind::FunctionTemplate)?;
    scope.note("get", NameKind::FunctionTemplate)?;
    scope.note("Small", NameKind::Concept)?;
    scope.note("Same", NameKind::Concept)?;
    scope.note("run", NameKind::Function)?;
    scope.note("value", NameKind::Value)?;
    Ok(scope)
}

/// What was read: a tree, as an argument of a template would be, the index behind it, and how many tokens and nodes
/// there are.
#[derive(Drop)]
struct Found<'s> {
    tree: TemplateArgument<'s>,
    behind: usize,
    tokens: usize,
    nodes: u32,
}

/// What a parser reads of a text; nothing of one that is too long.
fn read<'s>(
    alloc: Global,
    production: Production,
    text: &'s str,
    load: u32,
) -> Result<Option<Found<'s>>, Stop> {
    if text.len() > 100000 || load > 256 {
        return Ok(None);
    }
    one_division();
    let lexed = lex(alloc, text.as_bytes())?;
    let tokens = lexed.as_slice();
    if tokens.is_empty() || tokens.len() > 100000 {
        return Ok(None);
    }
    let mut scope = scope(alloc)?;
    let mut ids = Ids { next: 0 };
    let (tree, behind) = match production {
        Production::Expr => {
            let (expr, behind) = parse_expr(alloc, tokens, &mut scope, 0, load, &mut ids)?;
            (TemplateArgument::Value(expr), behind)
        }
        Production::Type => {
            let (syn, behind) = parse_type(alloc, tokens, &mut scope, 0, load, &mut ids)?;
            (TemplateArgument::Type(syn), behind)
        }
        Production::Clause => {
            let (clause, behind) = parse_clause(alloc, tokens, &mut scope, 0, load, &mut ids)?;
            (TemplateArgument::Value(clause), behind)
        }
    };
    Ok(Some(Found {
        tree,
        behind,
        tokens: tokens.len(),
        nodes: ids.next,
    }))
}

/// The numbers and columns of a tree's nodes as its debug text has them: each node before its parts.
fn marks(alloc: Global, debug: &str) -> Result<String, AllocError> {
    let mut out = String::new(alloc);
    for piece in debug.split("NodeId(").skip(1) {
        let Some((number, behind)) = piece.split_once(")") else {
            continue;
        };
        let Some((_, place)) = behind.split_once("col: ") else {
            continue;
        };
        let Some((column, _)) = place.split_once(" }") else {
            continue;
        };
        if !out.is_empty() {
            out.push_str(" ")?;
        }
        write!(out, "{number}@{column}")?;
    }
    Ok(out)
}

/// A tree in short, and where tokens are left before the end, how many were read.
fn text_of(alloc: Global, found: &Found<'_>) -> Result<String, AllocError> {
    let mut out = String::new(alloc);
    write_tree(&mut out, &found.tree)?;
    if found.behind < found.tokens.saturating_sub(1) {
        write!(out, " ..{}", found.behind)?;
    }
    Ok(out)
}

/// What is told of a tree: its nodes, itself, or that it is the whole text.
fn told(alloc: Global, row: &Row<'_>, found: &Found<'_>) -> Result<String, AllocError> {
    let debug = format!(in alloc; "{:?}", found.tree)?;
    if debug.as_str().matches("NodeId(").count() != found.nodes as usize {
        return String::from_str(alloc, "a gap in the numbers");
    }
    if row.nodes {
        return marks(alloc, debug.as_str());
    }
    if row.answer == "whole" && found.behind == found.tokens.saturating_sub(1) {
        return String::from_str(alloc, "whole");
    }
    text_of(alloc, found)
}

/// What a parser answers on a row's text, which is of one line: a tree, or what refuses it and the column.
pub fn answer(alloc: Global, row: &Row<'_>) -> Result<String, AllocError> {
    match read(alloc, row.production, row.text.as_str(), row.load) {
        Ok(Some(found)) => told(alloc, row, &found),
        Ok(None) => String::from_str(alloc, "too long"),
        Err(Stop::Fault(fault)) => { format!(in alloc; "{} {}", fault.kind.name(), fault.at.col) }
        Err(Stop::Limit(limit, at)) => format!(in alloc; "{} {}", limit.name(), at.col),
        Err(Stop::NoMemory) => String::from_str(alloc, "no memory"),
    }
}

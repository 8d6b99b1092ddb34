//! What the parser answers on a row's text.

ghost use Rattle.std.specs.Prelude.{◌<◌, length, IfOk};

use crate::printer::write_stmt;
use crate::row::{Asked, Row};
use cx_base::Stop;
use cx_lexer::{lex, one_division};
use cx_parse_expr::Ids;
use cx_parse_stmt::parse_stmt;
use cx_scope::{NameKind, Scope};
use cx_statements::Stmt;
use std::alloc::{AllocError, Global};

/// A scope with types T and U, class templates Box and Pair, function templates make and get, concepts Small and Same,
/// a function run, and a variable value. Other names are not declared.
fn scope<'s>(alloc: Global) -> Result<Scope<'s>, Stop>
    ensures { IfOk result (λ s. 0 < length s) }
{
    let mut scope = Scope::new(alloc);
    scope.enter()?;
    scope.note("T", NameKind::TypeName)?;
    scope.note("U", NameKind::TypeName)?;
    scope.note("Box", NameKind::ClassTemplate)?;
    scope.note("Pair", NameKind::ClassTemplate)?;
    scope.note("make", NameKind::FunctionTemplate)?;
    scope.note("get", NameKind::FunctionTemplate)?;
    scope.note("Small", NameKind::Concept)?;
    scope.note("Same", NameKind::Concept)?;
    scope.note("run", NameKind::Function)?;
    scope.note("value", NameKind::Value)?;
    Ok(scope)
}

/// What was read: a statement, the index behind it, how many tokens and nodes there are, and the names behind it.
#[derive(Drop)]
struct Found<'s> {
    stmt: Stmt<'s>,
    behind: usize,
    tokens: usize,
    nodes: u32,
    names: Scope<'s>,
}

/// What the parser reads of a text; nothing of one that is too long.
fn read<'s>(alloc: Global, text: &'s str, load: u32) -> Result<Option<Found<'s>>, Stop> {
    if text.len() > 100000 || load > 256 {
        return Ok(None);
    }
    one_division();
    let lexed = lex(alloc, text.as_bytes())?;
    let tokens = lexed.as_slice();
    if tokens.is_empty() || tokens.len() > 100000 {
        return Ok(None);
    }
    let mut names = scope(alloc)?;
    let mut ids = Ids { next: 0 };
    let (stmt, behind) = parse_stmt(alloc, tokens, &mut names, 0, load, &mut ids)?;
    Ok(Some(Found {
        stmt,
        behind,
        tokens: tokens.len(),
        nodes: ids.next,
        names,
    }))
}

/// What some names are.
fn names_of(alloc: Global, names: &Scope<'_>) -> Result<String, AllocError> {
    let mut out = String::new(alloc);
    let asked = ["T", "U", "Box", "x"];
    let mut before = "";
    for name in asked.as_slice() {
        out.push_str(before)?;
        match names.kind_of(name) {
            Some(kind) => write!(out, "{name} {kind:?}")?,
            None => write!(out, "{name} none")?,
        }
        before = ", ";
    }
    Ok(out)
}

/// A statement in short, and where tokens are left before the end, how many were read.
fn text_of(alloc: Global, found: &Found<'_>) -> Result<String, AllocError> {
    let mut out = String::new(alloc);
    write_stmt(&mut out, &found.stmt)?;
    if found.behind < found.tokens.saturating_sub(1) {
        write!(out, " ..{}", found.behind)?;
    }
    Ok(out)
}

/// What is told of a statement: the names behind it, itself, or that it is the whole text.
fn told(alloc: Global, row: &Row<'_>, found: &Found<'_>) -> Result<String, AllocError> {
    if let Asked::Names = row.asked {
        return names_of(alloc, &found.names);
    }
    let debug = format!(in alloc; "{:?}", found.stmt)?;
    if debug.as_str().matches("NodeId(").count() != found.nodes as usize {
        return String::from_str(alloc, "a gap in the numbers");
    }
    if row.answer == "whole" && found.behind == found.tokens.saturating_sub(1) {
        return String::from_str(alloc, "whole");
    }
    text_of(alloc, found)
}

/// What the parser answers on a row's text, which is of one line: a statement, or what refuses it and the column.
pub fn answer(alloc: Global, row: &Row<'_>) -> Result<String, AllocError> {
    match read(alloc, row.text.as_str(), row.load) {
        Ok(Some(found)) => told(alloc, row, &found),
        Ok(None) => String::from_str(alloc, "too long"),
        Err(Stop::Fault(fault)) => { format!(in alloc; "{} {}", fault.kind.name(), fault.at.col) }
        Err(Stop::Limit(limit, at)) => format!(in alloc; "{} {}", limit.name(), at.col),
        Err(Stop::NoMemory) => String::from_str(alloc, "no memory"),
    }
}

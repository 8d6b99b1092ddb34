//! The rows of a table.

use std::alloc::{AllocError, Global};

/// What a text is parsed as.
#[derive(Clone, Copy)]
pub enum Production {
    Expr,
    Type,
    Clause,
}

/// What a row says: what should be answered on a text where so many constructs are open.
#[derive(Drop)]
pub struct Row<'a> {
    pub production: Production,
    /// Whether the numbers and columns of the nodes are told, and not the tree.
    pub nodes: bool,
    pub load: u32,
    pub text: String,
    pub answer: &'a str,
}

/// A production by its word, and whether its nodes are told.
fn production_of(word: &str) -> Option<(Production, bool)> {
    match word {
        "expr" => Some((Production::Expr, false)),
        "type" => Some((Production::Type, false)),
        "clause" => Some((Production::Clause, false)),
        "expr-nodes" => Some((Production::Expr, true)),
        "type-nodes" => Some((Production::Type, true)),
        "clause-nodes" => Some((Production::Clause, true)),
        _ => None,
    }
}

/// Adds what stands between two backticks: a number, `|` and a piece, which is added so many times.
fn push_repeated(out: &mut String, repeated: &str) -> Result<Option<()>, AllocError> {
    let Some((times, piece)) = repeated.split_once("|") else {
        return Ok(None);
    };
    let Ok(times) = times.parse::<u32>() else {
        return Ok(None);
    };
    for _ in 0..times {
        out.push_str(piece)?;
    }
    Ok(Some(()))
}

/// A text with its repeated pieces written out.
fn text_of(alloc: Global, written: &str) -> Result<Option<String>, AllocError> {
    let mut out = String::new(alloc);
    let mut repeats = false;
    for piece in written.split("`") {
        if repeats {
            if push_repeated(&mut out, piece)?.is_none() {
                return Ok(None);
            }
        } else {
            out.push_str(piece)?;
        }
        repeats = !repeats;
    }
    Ok(Some(out))
}

/// The row that a line says: a production, how many constructs are open, a text, ` => ` and the answer.
pub fn row_of(alloc: Global, line: &str) -> Result<Option<Row<'_>>, AllocError> {
    let Some((word, behind)) = line.split_once(" ") else {
        return Ok(None);
    };
    let Some((load, behind)) = behind.split_once(" ") else {
        return Ok(None);
    };
    let Some((written, answer)) = behind.split_once(" => ") else {
        return Ok(None);
    };
    let Some((production, nodes)) = production_of(word) else {
        return Ok(None);
    };
    let Ok(load) = load.parse::<u32>() else {
        return Ok(None);
    };
    let Some(text) = text_of(alloc, written)? else {
        return Ok(None);
    };
    Ok(Some(Row {
        production,
        nodes,
        load,
        text,
        answer,
    }))
}

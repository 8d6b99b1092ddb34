//! The rows of a table.

use std::alloc::{AllocError, Global};

/// What a row asks for.
#[derive(Clone, Copy)]
pub enum Asked {
    /// The statement that a text is.
    Statement,
    /// What names are behind it.
    Names,
}

/// What a row says: what should be answered on a text where so many constructs are open.
#[derive(Drop)]
pub struct Row<'a> {
    pub asked: Asked,
    pub load: u32,
    pub text: String,
    pub answer: &'a str,
}

/// What is asked for by its word.
fn asked_by(word: &str) -> Option<Asked> {
    match word {
        "stmt" => Some(Asked::Statement),
        "names" => Some(Asked::Names),
        _ => None,
    }
}

/// Adds what stands between two backticks: a number, `|` and a piece, which is added so many times.
fn push_repeated(out: &mut String, repeated: &str) -> Result<Option<()>, AllocError> {
    let Some((times, piece)) = repeated.split_once("|") else {
        return Ok(None);
    };
    let Ok(times) = times.parse::<u32>() else {
        return Ok(None);
    };
    for _ in 0..times {
        out.push_str(piece)?;
    }
    Ok(Some(()))
}

/// A text with its repeated pieces written out.
fn text_of(alloc: Global, written: &str) -> Result<Option<String>, AllocError> {
    let mut out = String::new(alloc);
    let mut repeats = false;
    for piece in written.split("`") {
        if repeats {
            if push_repeated(&mut out, piece)?.is_none() {
                return Ok(None);
            }
        } else {
            out.push_str(piece)?;
        }
        repeats = !repeats;
    }
    Ok(Some(out))
}

/// The row that a line says: what is asked for, how many constructs are open, a text, ` => ` and the answer.
pub fn row_of(alloc: Global, line: &str) -> Result<Option<Row<'_>>, AllocError> {
    let Some((word, behind)) = line.split_once(" ") else {
        return Ok(None);
    };
    let Some((load, behind)) = behind.split_once(" ") else {
        return Ok(None);
    };
    let Some((written, answer)) = behind.split_once(" => ") else {
        return Ok(None);
    };
    let Some(asked) = asked_by(word) else {
        return Ok(None);
    };
    let Ok(load) = load.parse::<u32>() else {
        return Ok(None);
    };
    let Some(text) = text_of(alloc, written)? else {
        return Ok(None);
    };
    Ok(Some(Row {
        asked,
        load,
        text,
        answer,
    }))
}

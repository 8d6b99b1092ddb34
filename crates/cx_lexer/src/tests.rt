use super::*;
use cx_base::{Kind, Place, Stop};
use std::alloc::Global;
use std::process::Abort;
use std::test::Fail;

mod cuts;
mod faults;
mod numbers;
mod places;
mod skipped;
mod tables;

/// What a text should be read as: its tokens without the end.
fn tokens_are(
    rt: &impl Abort,
    alloc: Global,
    text: &str,
    wanted: &[(TokenKind, &str)],
) -> Result<(), Fail> {
    assert!(rt; text.len() < 1000);
    let tokens = lex(alloc, text.as_bytes())?;
    assert_eq!(rt; tokens.len(), wanted.len() + 1, "{text}");
    for (token, (kind, piece)) in tokens.iter().zip(wanted) {
        assert_eq!(rt; token.kind, *kind, "{text}");
        assert_eq!(rt; token.text, *piece, "{text}");
    }
    Ok(())
}

/// A text should be one token.
fn is_one(rt: &impl Abort, alloc: Global, text: &str, kind: TokenKind) -> Result<(), Fail> {
    tokens_are(rt, alloc, text, &[(kind, text)])
}

/// A text should have a fault at a place.
fn fault_is(rt: &impl Abort, alloc: Global, text: &[u8], kind: Kind, line: u32, col: u32) {
    assert!(rt; text.len() < 1000);
    match lex(alloc, text) {
        Err(Stop::Fault(fault)) => {
            assert_eq!(rt; fault.kind, kind, "{text:?}");
            assert_eq!(rt; fault.at, Place { line, col }, "{text:?}");
        }
        _ => panic!(rt; "no fault: {text:?}"),
    }
}

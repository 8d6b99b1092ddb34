use crate::{TokenKind, lex, next_token};
use cx_base::{Kind, Place};
use std::alloc::Global;
use std::process::Abort;
use std::test::Fail;

/// A text should have its last token before the end at a place.
fn last_is_at(rt: &impl Abort, alloc: Global, text: &str, line: u32, col: u32) -> Result<(), Fail> {
    assert!(rt; text.len() < 1000);
    let tokens = lex(alloc, text.as_bytes())?;
    assert!(rt; tokens.len() >= 2, "{text}");
    let at = tokens[tokens.len() - 2].at;
    assert_eq!(rt; at, Place { line, col }, "{text}");
    Ok(())
}

#[test]
fn columns_count_bytes(rt: HostRuntime) -> Result<(), Fail> {
    for (text, line, col) in [
        ("x", 1, 1),
        ("é x", 1, 4),
        ("变量=x", 1, 8),
        ("\"é\" x", 1, 6),
        ("\"😀\"x", 1, 7),
        ("/*é*/x", 1, 7),
        ("/*é\n变*/x", 2, 6),
        ("// é\nx", 2, 1),
        ("\r\nx", 2, 1),
        ("\rx", 1, 2),
        ("\t\x0b\x0cx", 1, 4),
        ("# 7 \"é\"\n x", 2, 2),
        ("a\n\n\nb c", 4, 3),
    ]
    .as_slice()
    {
        last_is_at(&rt, rt.alloc(), text, *line, *col)?;
    }
    Ok(())
}

#[test]
#[tactic(auto, unfolding(crate::specs::Places::place_of))]
fn the_next_token_stands_behind_skipped_text(rt: HostRuntime) {
    let alloc = rt.alloc();
    let text = "é /*\n*/ bc 08";
    let Ok((first, behind, place)) = next_token(alloc, text, 0, Place { line: 1, col: 1 }) else {
        panic!(rt; "a fault");
    };
    assert_eq!(rt; first.text, "é");
    let Ok((second, behind, place)) = next_token(alloc, text, behind, place) else {
        panic!(rt; "a fault");
    };
    assert_eq!(rt; second.kind, TokenKind::Name);
    assert_eq!(rt; second.text, "bc");
    assert_eq!(rt; second.at, Place { line: 2, col: 4 });
    assert_eq!(rt; behind, 11);
    assert_eq!(rt; place, Place { line: 2, col: 6 });
    match next_token(alloc, text, behind, place) {
        Ok(_) => panic!(rt; "a token"),
        Err(fault) => {
            assert_eq!(rt; fault.kind, Kind::BadToken);
            assert_eq!(rt; fault.at, Place { line: 2, col: 7 });
        }
    }
}

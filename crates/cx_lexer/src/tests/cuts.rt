use crate::{TokenKind, lex};
use cx_base::{Kind, Stop};
use std::alloc::Global;
use std::process::Abort;
use std::str;
use std::test::Fail;

/// Texts that begin, end or go on with tokens and skipped text.
const PIECES: [&str; 32] = [
    "/*", "*/", "//", "\n", "\n", " ", "\"", "\\", "# 1", "\n#line ", "#pragma", "'", "0", "0x",
    "f", "9", "1e", "+", "u", "ll", ".", "<=", ">", "-", "*", "if", "_", "Ω", "é", "😀", "@", "x ",
];

/// The next number of a pseudo-random sequence.
fn next(state: u32) -> u32 {
    state.wrapping_mul(1664525).wrapping_add(1013904223)
}

/// So many pseudo-random pieces, now and then with any byte between them.
fn noise(alloc: Global, seed: u32, count: usize) -> Result<Vec<u8>, Fail> {
    let mut state = seed;
    let mut bytes = Vec::new(alloc);
    for _ in 0..count {
        state = next(state);
        let chosen = (state >> 16) as usize;
        bytes.extend_from_slice(PIECES[chosen % 32].as_bytes())?;
        if chosen / 32 % 64 == 0 {
            bytes.push((state / 256 % 256) as u8)?;
        }
    }
    Ok(bytes)
}

/// A text is answered with tokens, the end last, or with a fault, which is BadByte where the text is not UTF-8.
fn is_answered(rt: &impl Abort, alloc: Global, text: &[u8]) {
    assert!(rt; text.len() < 1000);
    let is_text = str::from_utf8(text).is_ok();
    match lex(alloc, text) {
        Ok(tokens) => {
            let last = tokens.as_slice().last().map(|token| token.kind);
            assert_eq!(rt; last, Some(TokenKind::End), "{text:?}");
            assert!(rt; is_text, "{text:?}");
        }
        Err(Stop::Fault(fault)) => {
            assert_eq!(rt; fault.kind == Kind::BadByte, !is_text, "{text:?}");
        }
        Err(_) => panic!(rt; "no answer: {text:?}"),
    }
}

/// Each front of a text is answered.
fn fronts_are_answered(rt: &impl Abort, alloc: Global, text: &[u8]) {
    for end in 0..text.len() {
        is_answered(rt, alloc, &text[..end + 1]);
    }
}

#[test]
fn noise_is_answered_wherever_it_is_cut(rt: HostRuntime) -> Result<(), Fail> {
    for seed in 1..200 {
        let text = noise(rt.alloc(), seed, 40)?;
        fronts_are_answered(&rt, rt.alloc(), text.as_slice());
    }
    Ok(())
}

#[test]
fn a_unit_is_answered_wherever_it_is_cut(rt: HostRuntime) {
    let unit =
        "# 1 \"Ω.cc\"\nint Ωmega(long long _é) { /* 变量 */ return 0xffu + \"\\\"é\"; } // 😀\n";
    fronts_are_answered(&rt, rt.alloc(), unit.as_bytes());
}

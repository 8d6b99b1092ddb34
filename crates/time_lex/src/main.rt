//! Reads a unit and counts its tokens, the end with them.
#![tactic(auto)]

use cx_lexer::lex;
use std::alloc::Global;
use std::io::Read;

/// How many tokens a unit has, if it is read as tokens and is no longer than a unit may be.
fn count(alloc: Global, unit: &[u8]) -> Option<usize> {
    if unit.len() >= 4294967295 {
        return None;
    }
    match lex(alloc, unit) {
        Ok(tokens) => Some(tokens.len()),
        Err(_) => None,
    }
}

fn main(rt: HostRuntime) -> anyhow::Result<()> {
    let mut unit = Vec::new(rt.alloc());
    rt.stdin().read_to_end(&mut unit)?;
    match count(rt.alloc(), &unit) {
        Some(tokens) => println!(rt; "{tokens} tokens")?,
        None => println!(rt; "no tokens")?,
    }
    Ok(())
}

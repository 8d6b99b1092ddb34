ghost use Rattle.std.specs.Prelude.{◌≡◌, ◌<◌, ◌≤◌, ◌+◌, List, length, map, IsCharBoundary, MatchResult, IfOk, Result, Ok, Err};
ghost use Rattle.cx_base.specs.Refusal.{Refusal, Refused, Gives};
ghost use Rattle.cx_lexer.specs.Division.{AreTokens, ComesFrom, IsNext};
ghost use Rattle.cx_lexer.specs.Places.{place_at};
ghost use Rattle.cx_lexer.specs.Tokens.{TokenTree, token_tree};
ghost use Rattle.cx_lexer.specs.Reading.{spot, next, is_end, fault_at, start_of, tokens_from, lexed};

use crate::cursor::{Cursor, place_behind};
use crate::token::{Token, TokenKind};
use cx_base::{Fault, Kind, Place, Places, Stop};
use std::alloc::Global;
use std::str;

/// A fault at a place.
fn fault(alloc: Global, kind: Kind, at: Place) -> Fault
    ensures { Refused result ≡ fault_at kind at }
{
    Fault {
        kind,
        at,
        also: Places::new(alloc),
        chain: Places::new(alloc),
    }
}

/// The next token of a unit from an offset on, and the offset and the place behind it: [lex.phases], [lex.token].
/// Takes no memory. A fault is that of the first text that is neither skipped nor a token: BadToken, or
/// LiteralTooBig for a literal that no type of its row holds.
pub fn next_token<'s>(
    alloc: Global,
    src: &'s str,
    from: usize,
    at: Place,
) -> Result<(Token<'s>, usize, Place), Fault>
    requires short { length src.now < 4294967295 }
    requires boundary { IsCharBoundary src.now from }
    requires here { at ≡ place_at src.now from }
    ensures exact { MatchResult result
        (λ r. next (spot src.now from) ≡ Ok (record { token = token_tree r.0; behind = spot src.now r.1 }))
        (λ f. next (spot src.now from) ≡ Err (Refused f)) }
    ensures divides { MatchResult result
        (λ r. IsNext src.now from (token_tree r.0) r.1)
        (λ f. ComesFrom src.now from (Err (Refused f))) }
    ensures boundary { IfOk result (λ r. IsCharBoundary src.now r.1) }
    ensures here { IfOk result (λ r. r.2 ≡ place_at src.now r.1) }
{
    let mut cursor = Cursor { src, from, at };
    match cursor.next() {
        Ok(token) => Ok((token, cursor.from, cursor.at)),
        Err((kind, at)) => Err(fault(alloc, kind, at)),
    }
}

/// Whether a kind is that of the end.
fn is_end(kind: TokenKind) -> bool
    ensures { result ≡ is_end kind }
{
    match kind {
        TokenKind::End => true,
        _ => false,
    }
}

/// The tokens of a text, in order, the end last.
fn lex_text<'s>(alloc: Global, src: &'s str) -> Result<Vec<Token<'s>>, Stop>
    requires short { length src.now < 4294967295 }
    ensures { Gives (λ v. map token_tree v.items) result (tokens_from (start_of src.now)) }
{
    let mut tokens = Vec::new(alloc);
    let mut cursor = Cursor::new(src);
    'reading: loop {
        match cursor.next() {
            Ok(token) => {
                tokens.push(token)?;
                if is_end(token.kind) {
                    return Ok(tokens);
                }
            }
            Err((kind, at)) => return Err(Stop::Fault(fault(alloc, kind, at))),
        }
    }
}

/// The place of a unit's byte at an offset.
fn place_at(src: &[u8], offset: usize) -> Place
    requires short { length src.now < 4294967295 }
    requires within { offset ≤ length src.now }
    ensures { result ≡ place_at src.now offset }
{
    let (before, _) = src.split_at(offset);
    place_behind(Place { line: 1, col: 1 }, before)
}

/// The tokens of a unit, in order, the end last: [lex.phases], [lex.token]. The fault BadByte stands where the bytes
/// cease to be UTF-8, before every other fault; of the others the first by place is the answer: LiteralTooBig for a
/// literal that no type of its row holds, BadToken for any other text that is neither skipped nor a token. Takes time
/// in proportion to the unit. Refuses otherwise for want of memory alone.
pub fn lex<'s>(alloc: Global, src: &'s [u8]) -> Result<Vec<Token<'s>>, Stop>
    requires short { length src.now < 4294967295 }
    ensures exact { Gives (λ v. map token_tree v.items) result (lexed src.now) }
    ensures divides { (r : Result (List TokenTree) Refusal) × AreTokens src.now r × Gives (λ v. map token_tree v.items) result r }
    ensures only { (r : Result (List TokenTree) Refusal) → AreTokens src.now r → Gives (λ v. map token_tree v.items) result r }
{
    match str::from_utf8(src) {
        Ok(text) => lex_text(alloc, text),
        Err(error) => {
            let at = place_at(src, error.valid_up_to());
            Err(Stop::Fault(fault(alloc, Kind::BadByte, at)))
        }
    }
}

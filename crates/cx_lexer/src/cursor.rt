ghost use Rattle.std.specs.Prelude.{◌≡◌, ◌+◌, ◌<◌, ◌≤◌, ◌^◌, length, chars, take, drop, IsCharBoundary, MatchResult, Ok, Err};
ghost use Rattle.cx_base.specs.Refusal.{Refused};
ghost use Rattle.cx_lexer.specs.Places.{behind, place_behind, place_at, start};
ghost use Rattle.cx_lexer.specs.Tokens.{text_of, token_tree};
ghost use Rattle.cx_lexer.specs.Reading.{IsEndOf, before, spot, skip, read, next, fault_at};

use crate::characters::split_first;
use crate::kinds::kind_by;
use crate::literals::token_fault;
use crate::pieces::behind_token;
use crate::skipped::behind_skipped;
use crate::token::{Token, TokenKind};
use cx_base::{Kind, Place};

/// Where a unit is read: at an offset, and the place there.
#[derive(Drop)]
pub(crate) struct Cursor<'s> {
    pub(crate) src: &'s str,
    pub(crate) from: usize,
    pub(crate) at: Place,
    ghost short: { length src.now < 4294967295 },
    ghost boundary: { IsCharBoundary src.now from },
    ghost here: { at ≡ place_at src.now from },
}

/// The place behind a byte.
fn behind(at: Place, byte: u8) -> Place
    requires lines_fit { at.line + 1 < 2 ^ 32 }
    requires columns_fit { at.col + 1 < 2 ^ 32 }
    ensures { result ≡ behind at byte }
{
    if byte == b'\n' {
        Place {
            line: at.line + 1,
            col: 1,
        }
    } else {
        Place {
            line: at.line,
            col: at.col + 1,
        }
    }
}

/// The place behind a text that begins at a place.
pub(crate) fn place_behind(at: Place, text: &[u8]) -> Place
    requires lines_fit { at.line + length text.now < 2 ^ 32 }
    requires columns_fit { at.col + length text.now < 2 ^ 32 }
    ensures { result ≡ place_behind at text.now }
{
    let mut here = at;
    for byte in text {
        here = behind(here, *byte);
    }
    here
}

impl<'s> Cursor<'s> {
    /// The front of a unit.
    pub(crate) fn new(src: &'s str) -> Cursor<'s>
        requires { length src.now < 4294967295 }
        ensures src { result.src.now ≡ src.now }
        ensures from { result.from ≡ 0 }
    {
        Cursor {
            src,
            from: 0,
            at: Place { line: 1, col: 1 },
        }
    }

    /// What is left.
    fn rest(&self) -> &'s str
        ensures { result.now ≡ drop self.now.from self.now.src.now }
    {
        self.src.split_at(self.from).1
    }

    /// Goes to what is left, and gives what lies before it.
    fn go(&mut self, rest: &'s str) -> &'s str
        requires { IsEndOf (chars rest.now) (chars (drop self.old.from self.old.src.now)) }
        ensures src { self.new.src.now ≡ self.old.src.now }
        ensures rest { drop self.new.from self.new.src.now ≡ rest.now }
        ensures text { result.now ≡ text_of (before (chars (drop self.old.from self.old.src.now)) (chars rest.now)) }
        ensures at { self.new.at ≡ place_behind self.old.at result.now }
    {
        let here = self.rest();
        let (text, _) = here.split_at(here.len() - rest.len());
        let at = place_behind(self.at, text.as_bytes());
        *self = Cursor {
            src: self.src,
            from: self.src.len() - rest.len(),
            at,
        };
        text
    }

    /// Goes behind the skipped text that stands here.
    fn skip(&mut self)
        ensures src { self.new.src.now ≡ self.old.src.now }
        ensures at { spot self.old.src.now self.new.from ≡ skip (spot self.old.src.now self.old.from) }
    {
        while let Some(rest) = behind_skipped(self.at.col == 1, self.rest()) {
            self.go(rest);
        }
    }

    /// The token that stands here, where no skipped text does, or what is wrong here.
    fn read(&mut self) -> Result<Token<'s>, Kind>
        ensures src { self.new.src.now ≡ self.old.src.now }
        ensures step { MatchResult result
            (λ token. read (spot self.old.src.now self.old.from) ≡ Ok (record { token = token_tree token; behind = spot self.old.src.now self.new.from }))
            (λ kind. read (spot self.old.src.now self.old.from) ≡ Err (fault_at kind self.old.at)) }
    {
        let at = self.at;
        let here = self.rest();
        let Some((first, _)) = split_first(here) else {
            return Ok(Token {
                kind: TokenKind::End,
                text: "",
                at,
            });
        };
        let Some(rest) = behind_token(here) else {
            return Err(Kind::BadToken);
        };
        let text = self.go(rest);
        let kind = kind_by(first, text);
        match token_fault(kind, text.as_bytes()) {
            Some(fault) => Err(fault),
            None => Ok(Token { kind, text, at }),
        }
    }

    /// The next token, or the first fault and where it stands.
    pub(crate) fn next(&mut self) -> Result<Token<'s>, (Kind, Place)>
        ensures src { self.new.src.now ≡ self.old.src.now }
        ensures step { MatchResult result
            (λ token. next (spot self.old.src.now self.old.from) ≡ Ok (record { token = token_tree token; behind = spot self.old.src.now self.new.from }))
            (λ fault. next (spot self.old.src.now self.old.from) ≡ Err (fault_at fault.0 fault.1)) }
    {
        self.skip();
        let at = self.at;
        match self.read() {
            Ok(token) => Ok(token),
            Err(kind) => Err((kind, at)),
        }
    }
}

//! Reading the input to its end, in pieces, up to the limit on a unit's bytes.

ghost use Rattle.std.specs.Prelude.{◌≡◌, ◌≤◌, ◌<◌, length, vec_len, IfOk};
ghost use Rattle.conceptc.specs.Verdict.{source_limit};
ghost use Rattle.conceptc.specs.Reading.{ReadsInput, ReadsMore};

use crate::unread::Unread;
use cx_io::Source;
use std::alloc::{AllocError, Global};

/// How many bytes a unit may have.
const SOURCE_LIMIT: usize = 4194304;

/// How many bytes are asked for at a time.
const PIECE: usize = 65536;

/// A buffer for one piece.
fn piece_buffer(alloc: Global) -> Result<Vec<u8>, AllocError>
    ensures { IfOk result (λ piece. vec_len piece ≡ 65536) }
{
    vec![in alloc; 0u8; PIECE]
}

/// Reads one piece more behind the text, and tells whether there may be more.
fn read_more<S: Source>(input: &mut S, piece: &mut [u8], text: &mut Vec<u8>) -> Result<bool, Unread>
    requires room { 0 < length piece.old }
    requires within { vec_len text.old ≤ source_limit }
    ensures piece { ReadsMore (S.rest input.old) (S.rest input.new) (S.faults input.old) (S.faults input.new) text.old.items text.new.items result }
    ensures never_falls { S.faults input.old ≤ S.faults input.new }
{
    let Ok(n) = input.read(piece) else {
        return Err(Unread::Faulty);
    };
    if n == 0 {
        return Ok(false);
    }
    if n > SOURCE_LIMIT - text.len() {
        return Err(Unread::TooLong);
    }
    if text.extend_from_slice(&piece[..n]).is_err() {
        return Err(Unread::OutOfMemory);
    }
    Ok(true)
}

/// The bytes of the input, all of them.
pub fn read_input<S: Source>(alloc: Global, input: &mut S) -> Result<Vec<u8>, Unread>
    ensures cause { ReadsInput (S.rest input.old) (S.rest input.new) (S.faults input.old) (S.faults input.new) result }
    ensures never_falls { S.faults input.old ≤ S.faults input.new }
{
    let Ok(mut piece) = piece_buffer(alloc) else {
        return Err(Unread::OutOfMemory);
    };
    let mut text = Vec::new(alloc);
    while read_more(input, &mut piece, &mut text)? {}
    Ok(text)
}

//! The words behind the program's name.

ghost use Rattle.std.specs.Prelude.{◌≡◌, map, drop, IfOk, string_bytes};
ghost use Rattle.std.specs.Vec.Iter.{into_iter_items};

use std::alloc::{AllocError, Global};
use std::env;
use std::io::ErrorKind;
use std::rt::Env;

/// Why there are no words.
#[derive(Clone, Copy, Debug, PartialEq, Eq)]
pub enum NoWords {
    /// One of them is no text.
    NotText,
    /// Memory ran out.
    OutOfMemory,
}

/// The words behind the program's name.
pub fn gather<R: Env + AllocGlobal>(rt: &R) -> Result<Vec<String>, NoWords> {
    match env::args(rt) {
        Ok(args) => collect_behind_name(rt.alloc(), args).map_err(|_| NoWords::OutOfMemory),
        Err(error) if error.kind() == ErrorKind::InvalidData => Err(NoWords::NotText),
        Err(_) => Err(NoWords::OutOfMemory),
    }
}

fn collect_behind_name(alloc: Global, args: env::Args) -> Result<Vec<String>, AllocError>
    ensures { IfOk result (λ words. words.items ≡ drop 1 (into_iter_items args)) }
{
    args.skip(1).collect(alloc)
}

/// The texts of strings, in order.
pub fn as_texts(alloc: Global, words: &[String]) -> Result<Vec<&str>, AllocError>
    ensures { IfOk result (λ texts. map (λ t. t.now) texts.items ≡ map (λ w. string_bytes w) words.now) }
{
    words.iter().map(|word| word.as_str()).collect(alloc)
}

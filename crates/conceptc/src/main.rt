//! `conceptc`: from constrained C++20 to functions without templates.
#![tactic(auto)]

ghost use Rattle.std.specs.Prelude.{Option, map, string_bytes};
ghost use Rattle.conceptc.specs.Answers.{IsAnswered};
ghost use Rattle.conceptc.specs.Command.{command_of};
ghost use Rattle.conceptc.specs.declared.command.Command.{Command};

mod announcement;
mod command;
mod deciding;
mod decision;
mod input;
mod laws;
mod line;
mod report;
mod status;
#[cfg(test)]
mod tests;
mod top;
mod translation;
mod unread;
mod words;

use cx_io::{Sink, Source, StdSink, StdSource};
pub use status::Status;
use std::alloc::Global;
use std::process::ExitCode;
pub use top::conceptc;
use words::{NoWords, as_texts, gather};

/// Calls the compiler with the words, or with the one word `?`, which is no command, where a word is no text.
fn call<R: std::rt::Env + AllocGlobal, S: Source, O: Sink, D: Sink>(
    rt: &R,
    input: &mut S,
    out: &mut O,
    diag: &mut D,
) -> Status
    ensures answered { (command : Option Command) × IsAnswered command result (S.rest input.old) (S.rest input.new) (S.faults input.old) (S.faults input.new)
        (O.written out.old) (O.written out.new) (O.faults out.old) (O.faults out.new) (D.written diag.old) (D.written diag.new) (D.faults diag.old) (D.faults diag.new) }
{
    let alloc = rt.alloc();
    match gather(rt) {
        Ok(words) => call_with(alloc, &words, input, out, diag),
        Err(NoWords::NotText) => conceptc(alloc, &["?"], input, out, diag),
        Err(NoWords::OutOfMemory) => Status::NoMemory,
    }
}

/// Calls the compiler with these words.
fn call_with<S: Source, O: Sink, D: Sink>(
    alloc: Global,
    words: &[String],
    input: &mut S,
    out: &mut O,
    diag: &mut D,
) -> Status
    ensures answered { IsAnswered (command_of (map (λ w. string_bytes w) words.now)) result (S.rest input.old) (S.rest input.new) (S.faults input.old) (S.faults input.new)
        (O.written out.old) (O.written out.new) (O.faults out.old) (O.faults out.new) (D.written diag.old) (D.written diag.new) (D.faults diag.old) (D.faults diag.new) }
{
    match as_texts(alloc, words) {
        Ok(texts) => conceptc(alloc, &texts, input, out, diag),
        Err(_) => Status::NoMemory,
    }
}

fn main(rt: HostRuntime) -> ExitCode {
    let mut input = StdSource::new(rt.stdin());
    let mut out = StdSink::new(rt.stdout());
    let mut diag = StdSink::new(rt.stderr());
    ExitCode::from(call(&rt, &mut input, &mut out, &mut diag) as u8)
}

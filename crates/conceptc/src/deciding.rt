//! What a call decides.

ghost use Rattle.std.specs.Prelude.{◌≡◌, ◌≤◌, map};
ghost use Rattle.conceptc.specs.Command.{command_of};
ghost use Rattle.conceptc.specs.Decision.{IsCause, IsCauseOf};

use crate::command::{Command, read_command};
use crate::decision::Decision;
use crate::input::read_input;
use crate::translation::judge;
use crate::unread::Unread;
use cx_base::{Limit, Place};
use cx_io::Source;
use std::alloc::Global;

/// Reads the input to its end and judges its bytes as a unit.
fn judge_input<S: Source>(alloc: Global, input: &mut S) -> Decision
    ensures cause { IsCauseOf result (S.rest input.old) (S.rest input.new) (S.faults input.old) (S.faults input.new) }
    ensures never_falls { S.faults input.old ≤ S.faults input.new }
{
    match read_input(alloc, input) {
        Ok(source) => judge(alloc, &source),
        Err(Unread::TooLong) => Decision::Passed(Limit::Source, Place { line: 0, col: 0 }),
        Err(Unread::Faulty) => Decision::Unread,
        Err(Unread::OutOfMemory) => Decision::OutOfMemory,
    }
}

/// What the words ask of the input. With words that are no command nothing is read.
pub fn decide<S: Source>(alloc: Global, words: &[&str], input: &mut S) -> Decision
    ensures cause { IsCause result (command_of (map (λ w. w.now) words.now)) (S.rest input.old) (S.rest input.new) (S.faults input.old) (S.faults input.new) }
    ensures never_falls { S.faults input.old ≤ S.faults input.new }
{
    match read_command(words) {
        None => Decision::NoCommand,
        Some(Command::Translate) => judge_input(alloc, input),
    }
}

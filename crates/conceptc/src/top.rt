ghost use Rattle.std.specs.Prelude.{◌≡◌, ◌⊎◌, ◌≤◌, ◌<◌, ℕ, List, length, map, Some, None, Ok, Err};
ghost use Rattle.cx_base.specs.Refusal.{Refused, Passed};
ghost use Rattle.cx_base.specs.declared.fault.Fault.{Fault};
ghost use Rattle.cx_base.specs.declared.limit.Limit.TheVariants as limit;
ghost use Rattle.cx_base.specs.declared.place.Place.{Place};
ghost use Rattle.cx_io.specs.Count.{Rose};
ghost use Rattle.cx_plain.specs.PlainTree.{PlainTree};
ghost use Rattle.conceptc.specs.declared.command.Command.TheVariants.{Translate};
ghost use Rattle.conceptc.specs.Answers.{IsDecided, IsDone, IsIllFormed, IsUsage, IsLimit, IsReadFault, IsWriteFault, IsNoMemory, IsNeverYet, IsUnlessFaulty, IsComplete};
ghost use Rattle.conceptc.specs.Command.{command_of};
ghost use Rattle.conceptc.specs.Verdict.{source_limit, verdict};

use crate::announcement::announce;
use crate::deciding::decide;
use crate::laws::stages;
use crate::status::Status;
use cx_io::{Sink, Source};
use std::alloc::Global;

/// Does what the words say: `translate` reads a unit from `input` and puts its plain text and then its witness text on
/// `out`, or a report on `diag`.
///
/// Unless memory lacks, or reading or writing fails, a unit is translated exactly where its verdict is a plain unit, and
/// refused with the report of the fault or the limit that its verdict is elsewhere.
pub fn conceptc<S: Source, O: Sink, D: Sink>(
    alloc: Global,
    words: &[&str],
    input: &mut S,
    out: &mut O,
    diag: &mut D,
) -> Status
    // Every answer has its cause, and is what was said.
    ensures decided { IsDecided (command_of (map (λ w. w.now) words.now)) result (S.rest input.old) (S.rest input.new) (S.faults input.old) (S.faults input.new)
        (O.written out.old) (O.written out.new) (O.faults out.old) (O.faults out.new) (D.written diag.old) (D.written diag.new) (D.faults diag.old) (D.faults diag.new) }

    // What each answer says.
    ensures done { result ≡ Status.Done → IsDone (command_of (map (λ w. w.now) words.now)) (S.rest input.old) (S.rest input.new)
        (O.written out.old) (O.written out.new) (D.written diag.old) (D.written diag.new) }
    ensures ill_formed { result ≡ Status.IllFormed → IsIllFormed (command_of (map (λ w. w.now) words.now)) (S.rest input.old) (S.rest input.new)
        (O.written out.old) (O.written out.new) (D.written diag.old) (D.written diag.new) }
    ensures usage { result ≡ Status.Usage → IsUsage (command_of (map (λ w. w.now) words.now)) (S.rest input.old) (S.rest input.new)
        (O.written out.old) (O.written out.new) (D.written diag.old) (D.written diag.new) }
    ensures limit { result ≡ Status.Limit → IsLimit (command_of (map (λ w. w.now) words.now)) (S.rest input.old) (S.rest input.new)
        (O.written out.old) (O.written out.new) (D.written diag.old) (D.written diag.new) }
    ensures read_fault { result ≡ Status.ReadFault → IsReadFault (S.faults input.old) (S.faults input.new)
        (O.written out.old) (O.written out.new) (D.written diag.old) (D.written diag.new) }
    ensures write_fault { result ≡ Status.WriteFault → IsWriteFault (command_of (map (λ w. w.now) words.now)) (S.rest input.old) (S.rest input.new) (S.faults input.old) (S.faults input.new)
        (O.written out.old) (O.written out.new) (O.faults out.old) (O.faults out.new) (D.written diag.old) (D.written diag.new) (D.faults diag.old) (D.faults diag.new) }
    ensures no_memory { result ≡ Status.NoMemory → IsNoMemory (command_of (map (λ w. w.now) words.now)) (O.written out.old) (O.written out.new) (D.written diag.old) (D.written diag.new) }
    ensures never_yet { IsNeverYet result → ⊥ }

    // Where each answer comes, of an input that tells its bytes.
    ensures usage_exactly { command_of (map (λ w. w.now) words.now) ≡ None → (result ≡ Status.Usage) ⊎ (result ≡ Status.WriteFault) }
    ensures limit_exactly { command_of (map (λ w. w.now) words.now) ≡ Some Translate → (bytes : List ℕ) → S.rest input.old ≡ Some bytes → source_limit < length bytes
        → IsUnlessFaulty Status.Limit result }
    ensures depth_exactly { command_of (map (λ w. w.now) words.now) ≡ Some Translate → (bytes : List ℕ) (at : Place) → S.rest input.old ≡ Some bytes → verdict bytes ≡ Err (Passed limit.Depth at)
        → IsUnlessFaulty Status.Limit result }
    ensures ill_formed_exactly { command_of (map (λ w. w.now) words.now) ≡ Some Translate → (bytes : List ℕ) (fault : Fault) → S.rest input.old ≡ Some bytes → verdict bytes ≡ Err (Refused fault)
        → IsUnlessFaulty Status.IllFormed result }
    ensures done_exactly { command_of (map (λ w. w.now) words.now) ≡ Some Translate → (bytes : List ℕ) (plain : PlainTree) → S.rest input.old ≡ Some bytes → verdict bytes ≡ Ok plain
        → IsUnlessFaulty Status.Done result }

    // Where no count of faults rises, a unit whose verdict is a plain unit is translated to exactly its texts.
    ensures complete { command_of (map (λ w. w.now) words.now) ≡ Some Translate → (bytes : List ℕ) (plain : PlainTree) → S.rest input.old ≡ Some bytes → verdict bytes ≡ Ok plain
        → (Rose (S.faults input.old) (S.faults input.new) → ⊥) → (Rose (O.faults out.old) (O.faults out.new) → ⊥) → (Rose (D.faults diag.old) (D.faults diag.new) → ⊥)
        → IsComplete plain result (O.written out.old) (O.written out.new) }
{
    stages();
    let decision = decide(alloc, words, input);
    announce(&decision, out, diag)
}

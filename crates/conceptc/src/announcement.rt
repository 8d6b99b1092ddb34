//! A decision is said: its texts are put, and its status is given.

ghost use Rattle.std.specs.Prelude.{◌≡◌, ◌≤◌};
ghost use Rattle.conceptc.specs.Puts.{PutsText};
ghost use Rattle.conceptc.specs.Decision.{out_text, diag_text, status_of, witness_text, Says};

use crate::decision::Decision;
use crate::report::{put_both, put_fault, put_limit, put_text};
use crate::status::Status;
use cx_io::{Failed, Sink};

/// The text of a witness without records.
#[tactic(auto, unfolding(crate::specs::Decision::witness_text))]
fn witness() -> &'static str
    ensures { result.now ≡ witness_text }
{
    "//= witness 1\n"
}

/// Puts what goes to out.
fn put_out<O: Sink>(out: &mut O, decision: &Decision) -> Result<(), Failed>
    ensures { PutsText (O.written out.old) (O.written out.new) (O.faults out.old) (O.faults out.new) result (out_text decision.now) }
{
    match decision {
        Decision::Translated(text) => put_both(out, text.as_slice(), witness().as_bytes()),
        _ => Ok(()),
    }
}

/// Puts what goes to diag.
#[tactic(auto, unfolding(crate::specs::Report::usage_report, crate::specs::Report::read_fault_report))]
fn put_diag<D: Sink>(diag: &mut D, decision: &Decision) -> Result<(), Failed>
    ensures { PutsText (D.written diag.old) (D.written diag.new) (D.faults diag.old) (D.faults diag.new) result (diag_text decision.now) }
{
    match decision {
        Decision::NoCommand => put_text(diag, "usage\n".as_bytes()),
        Decision::Translated(_) => Ok(()),
        Decision::Refused(fault) => put_fault(diag, fault),
        Decision::Passed(limit, at) => put_limit(diag, *limit, *at),
        Decision::Unread => put_text(diag, "read fault\n".as_bytes()),
        Decision::OutOfMemory => Ok(()),
    }
}

/// How the call ends where every text is taken.
fn status_of(decision: &Decision) -> Status
    ensures { result ≡ status_of decision.now }
{
    match decision {
        Decision::NoCommand => Status::Usage,
        Decision::Translated(_) => Status::Done,
        Decision::Refused(_) => Status::IllFormed,
        Decision::Passed(_, _) => Status::Limit,
        Decision::Unread => Status::ReadFault,
        Decision::OutOfMemory => Status::NoMemory,
    }
}

/// Says a decision. Takes no memory.
pub fn announce<O: Sink, D: Sink>(decision: &Decision, out: &mut O, diag: &mut D) -> Status
    ensures says { Says decision.now result (O.written out.old) (O.written out.new) (O.faults out.old) (O.faults out.new)
        (D.written diag.old) (D.written diag.new) (D.faults diag.old) (D.faults diag.new) }
    ensures out_counts { O.faults out.old ≤ O.faults out.new }
    ensures diag_counts { D.faults diag.old ≤ D.faults diag.new }
{
    let Ok(()) = put_out(out, decision) else {
        return Status::WriteFault;
    };
    let Ok(()) = put_diag(diag, decision) else {
        return Status::WriteFault;
    };
    status_of(decision)
}

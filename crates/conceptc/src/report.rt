//! What is put on the sinks.

ghost use Rattle.std.specs.Prelude.{◌≡◌, ◌≤◌, ◌++◌, length};
ghost use Rattle.std.specs.List.{flat_map};
ghost use Rattle.conceptc.specs.Puts.{PutsText};
ghost use Rattle.conceptc.specs.Report.{place_line, fault_report, limit_report};

use crate::line::{name_line, place_line};
use cx_base::{Fault, Limit, Place, Places};
use cx_io::{Failed, Sink};

/// Puts a text in one put, or in none where it is empty.
pub fn put_text<K: Sink>(sink: &mut K, text: &[u8]) -> Result<(), Failed>
    ensures { PutsText (K.written sink.old) (K.written sink.new) (K.faults sink.old) (K.faults sink.new) result text.now }
{
    if text.is_empty() {
        return Ok(());
    }
    sink.put(text)
}

/// Puts a text behind another one.
pub fn put_both<K: Sink>(sink: &mut K, first: &[u8], second: &[u8]) -> Result<(), Failed>
    ensures { PutsText (K.written sink.old) (K.written sink.new) (K.faults sink.old) (K.faults sink.new) result (first.now ++ second.now) }
{
    put_text(sink, first)?;
    put_text(sink, second)
}

/// Puts a line for each place.
fn put_places<K: Sink>(diag: &mut K, word: &str, places: &Places) -> Result<(), Failed>
    requires { length word.now ≤ 5 }
    ensures { PutsText (K.written diag.old) (K.written diag.new) (K.faults diag.old) (K.faults diag.new) result (flat_map (place_line word.now) places.now) }
{
    for i in 0..places.len() {
        let line = place_line(word, places.get(i));
        put_text(diag, line.as_str().as_bytes())?;
    }
    Ok(())
}

/// Puts the report of a fault, line by line.
#[tactic(auto, unfolding(crate::specs::Report::fault_report))]
pub fn put_fault<K: Sink>(diag: &mut K, fault: &Fault) -> Result<(), Failed>
    ensures { PutsText (K.written diag.old) (K.written diag.new) (K.faults diag.old) (K.faults diag.new) result (fault_report fault.now) }
{
    let line = name_line("fault", fault.kind.name(), fault.at);
    put_text(diag, line.as_str().as_bytes())?;
    put_places(diag, "also", &fault.also)?;
    put_places(diag, "chain", &fault.chain)
}

/// Puts the report of a limit.
#[tactic(auto, unfolding(crate::specs::Report::limit_report))]
pub fn put_limit<K: Sink>(diag: &mut K, limit: Limit, at: Place) -> Result<(), Failed>
    ensures { PutsText (K.written diag.old) (K.written diag.new) (K.faults diag.old) (K.faults diag.new) result (limit_report limit at) }
{
    let line = name_line("limit", limit.name(), at);
    put_text(diag, line.as_str().as_bytes())
}

//! Reads a table of formulas, with what they should be and entail, and tells the rows on which the answer is another.
//!
//! A row is a word, formulas spelled with their operators first, ` => ` and the answer. `counts P` is answered by the
//! clauses of both normal forms and the atoms; `truth P` by the formula's values under each list of values of the
//! table's atoms, the first atom's changing fastest; `numbers P Q ..` by the formulas' numbers, in a table that has no
//! others but their parts; `entails P Q` by `derived` with the number of steps, or `separated` with the numbers of the
//! atoms that are true; `both P Q` by whether each entails
//! the other; `steps P Q` by the derivation. `chain N` asks whether a conjunction of so many atoms entails that
//! of one less, joined from the other side. Empty lines and those that begin with `#` say nothing.
#![tactic(auto)]

mod answer;
mod told;

use answer::answer;
use std::io;

fn main(rt: HostRuntime) -> anyhow::Result<()> {
    let table = io::read_to_string(rt.alloc(), rt.stdin())?;
    let mut rows: u64 = 0;
    let mut wrong: u64 = 0;
    for line in table.as_str().lines() {
        if line.is_empty() || line.starts_with("#") {
            continue;
        }
        rows = rows.saturating_add(1);
        let (question, wanted) = line.split_once(" => ").unwrap_or((line, ""));
        let right = match answer(rt.alloc(), question) {
            Ok(found) => found.as_str() == wanted,
            Err(_) => false,
        };
        if !right {
            wrong = wrong.saturating_add(1);
            println!(rt; "{line}")?;
        }
    }
    println!(rt; "{rows} rows, {wrong} wrong")?;
    Ok(())
}

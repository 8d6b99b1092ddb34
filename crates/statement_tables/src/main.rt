//! Reads a table of texts and what the parser of statements should answer on each, and tells the rows on which it
//! answers otherwise.
//!
//! A row is `stmt` or `names`, how many constructs are open, a text, ` => ` and the answer: for `stmt` a statement in
//! short, with ` ..N` where only N tokens were read; `whole` where any statement of the whole text will do; or what
//! refuses the text and the column. For `names` it is what some names then are. In a text a number, `|` and a piece
//! between backticks stand for the piece so many times. Empty lines and those that begin with `#` say nothing.
#![tactic(auto)]

mod answer;
mod printer;
mod row;

use answer::answer;
use row::row_of;
use std::io;

fn main(rt: HostRuntime) -> anyhow::Result<()> {
    let table = io::read_to_string(rt.alloc(), rt.stdin())?;
    let mut rows: u64 = 0;
    let mut wrong: u64 = 0;
    for line in table.as_str().lines() {
        if line.is_empty() || line.starts_with("#") {
            continue;
        }
        rows = rows.saturating_add(1);
        match row_of(rt.alloc(), line)? {
            Some(row) => {
                let found = answer(rt.alloc(), &row)?;
                if found.as_str() != row.answer {
                    wrong = wrong.saturating_add(1);
                    println!(rt; "{line}\n    {found}")?;
                }
            }
            None => {
                wrong = wrong.saturating_add(1);
                println!(rt; "no row: {line}")?;
            }
        }
    }
    println!(rt; "{rows} rows, {wrong} wrong")?;
    Ok(())
}

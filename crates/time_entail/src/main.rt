//! The time that it takes to decide pairs of formulas that grow: the word `figures` on the command line prints it.
#![tactic(auto)]

ghost use Rattle.cx_prop.specs.Table.{Has};

use cx_base::{FormulaId, Stop};
use cx_derive::{Answer, entails};
use cx_prop::Formulas;
use formula_text::{conjunction, conjunction_from_the_right, disjunction, read};
use std::alloc::Global;
use std::env;
use std::rt::Clock;
use std::time::Instant;

// How many steps derive the one formula from the other, if it is derived.
fn steps(
    alloc: Global,
    formulas: &Formulas,
    p: FormulaId,
    q: FormulaId,
) -> Result<Option<usize>, Stop>
    requires left { Has formulas.now p }
    requires right { Has formulas.now q }
{
    match entails(alloc, formulas, p, q)? {
        Answer::Derived(derivation) => Ok(Some(derivation.steps().len())),
        Answer::Separated(_) => Ok(None),
    }
}

fn of_texts(alloc: Global, one: &[u8], other: &[u8]) -> Result<Option<usize>, Stop> {
    let mut formulas = Formulas::new(alloc)?;
    let (p, _) = read(&mut formulas, one)?;
    let (q, _) = read(&mut formulas, other)?;
    steps(alloc, &formulas, p, q)
}

fn of_chains(alloc: Global) -> Result<Option<usize>, Stop> {
    let mut formulas = Formulas::new(alloc)?;
    let all = conjunction(&mut formulas, 399)?;
    let most = conjunction_from_the_right(&mut formulas, 398)?;
    steps(alloc, &formulas, all, most)
}

fn of_deep_forms(alloc: Global, first: u32) -> Result<Option<usize>, Stop> {
    let mut formulas = Formulas::new(alloc)?;
    let p = conjunction_from_the_right(&mut formulas, 4095)?;
    let q = disjunction(&mut formulas, first, first.saturating_add(4095))?;
    steps(alloc, &formulas, p, q)
}

const DISTINCT: &[u8] = b"&&&&&&&&&|ab|cd|ef|gh|ij|kl|mn|op|qr|st";

const FROM_THE_RIGHT: &[u8] = b"&|ab&|cd&|ef&|gh&|ij&|kl&|mn&|op&|qr|st";

const CLAUSES: &[u8] = b"|||||||||&ab&cd&ef&gh&ij&kl&mn&op&qr&st";

const ALIKE: &[u8] = b"&&&&&&&&&|ab|ab|ab|ab|ab|ab|ab|ab|ab|ab";

const ALIKE_CLAUSES: &[u8] = b"|||||||||&ab&ab&ab&ab&ab&ab&ab&ab&ab&ab";

/// The dearest pair within the limit on clauses.
const DEAREST: &[u8] = b"&&&&&&&&&&|ab|cd|ef|gh|ij|kl|mn|op|qrYZ";

const DEAREST_CLAUSES: &[u8] = b"||||||||||&st&uv&wx&yz&01&23&45&67&89&+-&ZY";

const PAIRS: [(&str, &[u8], &[u8]); 7] = [
    ("the dearest pair", DEAREST, DEAREST_CLAUSES),
    ("P against Q, atoms distinct", DISTINCT, CLAUSES),
    ("Q against P, atoms distinct", CLAUSES, DISTINCT),
    ("P against Q, two atoms", ALIKE, ALIKE_CLAUSES),
    ("Q against P, two atoms", ALIKE_CLAUSES, ALIKE),
    (
        "P against P joined from the other side",
        DISTINCT,
        FROM_THE_RIGHT,
    ),
    (
        "P joined from the other side against P",
        FROM_THE_RIGHT,
        DISTINCT,
    ),
];

// Prints what was found, and the time since the start.
fn report(
    rt: &(impl Clock + Print),
    name: &str,
    start: Instant,
    found: Result<Option<usize>, Stop>,
) -> anyhow::Result<()> {
    let took = start.elapsed(rt)?.as_millis();
    match found {
        Ok(Some(count)) => println!(rt; "{name}: derived in {count} steps, {took} ms")?,
        Ok(None) => println!(rt; "{name}: separated, {took} ms")?,
        Err(_) => println!(rt; "{name}: no memory")?,
    }
    Ok(())
}

fn figures(rt: &(impl Clock + Print), alloc: Global) -> anyhow::Result<()> {
    for (name, one, other) in &PAIRS {
        let start = Instant::now(rt)?;
        report(rt, name, start, of_texts(alloc, one, other))?;
    }
    let start = Instant::now(rt)?;
    report(
        rt,
        "400 conjuncts against the first 399",
        start,
        of_chains(alloc),
    )?;
    let start = Instant::now(rt)?;
    report(
        rt,
        "4,096 atoms against 4,096, one in both",
        start,
        of_deep_forms(alloc, 4095),
    )?;
    let start = Instant::now(rt)?;
    report(
        rt,
        "4,096 atoms against 4,096 others",
        start,
        of_deep_forms(alloc, 4096),
    )
}

fn main(rt: HostRuntime) -> anyhow::Result<()> {
    for word in env::args(&rt)? {
        if word.as_str() == "figures" {
            figures(&rt, rt.alloc())?;
        }
    }
    Ok(())
}

//! What is found on a row's question.

ghost use Rattle.std.specs.Prelude.{IfOk};
ghost use Rattle.cx_prop.specs.Table.{Has};

use crate::told::{write_answer, write_steps};
use cx_base::{FormulaId, Stop};
use cx_derive::{Answer, entails};
use cx_prop::Formulas;
use formula_text::{conjunction, conjunction_from_the_right, read};
use std::alloc::{AllocError, Global};

/// The formula that a text spells.
fn one(formulas: &mut Formulas, text: &str) -> Result<FormulaId, Stop>
    ensures { IfOk result (Has formulas.new) }
{
    let (p, _) = read(formulas, text.as_bytes())?;
    Ok(p)
}

/// The formulas that two texts spell, with a blank between them.
fn two(formulas: &mut Formulas, texts: &str) -> Result<(FormulaId, FormulaId), Stop>
    ensures left { IfOk result (λ r. Has formulas.new r.0) }
    ensures right { IfOk result (λ r. Has formulas.new r.1) }
{
    let (left, right) = texts.split_once(" ").unwrap_or((texts, ""));
    let (p, _) = read(formulas, left.as_bytes())?;
    let (q, _) = read(formulas, right.as_bytes())?;
    Ok((p, q))
}

/// A conjunction of the atoms up to a number, and that of all but the last, joined from the other side.
fn chain(formulas: &mut Formulas, last: u32) -> Result<(FormulaId, FormulaId), Stop>
    ensures left { IfOk result (λ r. Has formulas.new r.0) }
    ensures right { IfOk result (λ r. Has formulas.new r.1) }
{
    let all = conjunction(formulas, last)?;
    let most = conjunction_from_the_right(formulas, last.saturating_sub(1))?;
    Ok((all, most))
}

/// Adds the counts of a formula.
fn counts(out: &mut String, formulas: &Formulas, p: FormulaId) -> Result<(), AllocError>
    requires { Has formulas.now p }
{
    let counts = formulas.counts(p);
    write!(out, "{} {} {}", counts.dnf, counts.cnf, counts.atoms)
}

/// Adds the values of a formula of three atoms, the first atom's changing fastest.
fn values(out: &mut String, formulas: &Formulas, p: FormulaId) -> Result<(), AllocError>
    requires { Has formulas.now p }
{
    for row in 0..8u8 {
        let truth = [row & 1 != 0, row & 2 != 0, row & 4 != 0];
        if formulas.atom_count() != truth.len() {
            return out.push_str("not three atoms");
        }
        out.push_str(if formulas.holds(p, &truth) { "1" } else { "0" })?;
    }
    Ok(())
}

/// Adds the numbers of formulas that one table is asked for in turn.
fn numbers(out: &mut String, formulas: &mut Formulas, texts: &str) -> Result<(), Stop> {
    for text in texts.split(" ") {
        let p = one(formulas, text)?;
        if !out.is_empty() {
            out.push_str(" ")?;
        }
        write!(out, "{}", p.0)?;
    }
    Ok(())
}

/// Whether the first formula entails the second.
fn derives(alloc: Global, formulas: &Formulas, p: FormulaId, q: FormulaId) -> Result<bool, Stop>
    requires left { Has formulas.now p }
    requires right { Has formulas.now q }
{
    Ok(matches!(entails(alloc, formulas, p, q)?, Answer::Derived(_)))
}

/// Adds whether each of two formulas entails the other.
fn both(
    alloc: Global,
    out: &mut String,
    formulas: &Formulas,
    p: FormulaId,
    q: FormulaId,
) -> Result<(), Stop>
    requires left { Has formulas.now p }
    requires right { Has formulas.now q }
{
    let forward = derives(alloc, formulas, p, q)?;
    out.push_str(if forward { "yes" } else { "no" })?;
    let back = derives(alloc, formulas, q, p)?;
    out.push_str(if back { " yes" } else { " no" })?;
    Ok(())
}

/// Adds what is found on a question.
fn find(
    alloc: Global,
    out: &mut String,
    formulas: &mut Formulas,
    question: &str,
) -> Result<(), Stop> {
    let (word, rest) = question.split_once(" ").unwrap_or((question, ""));
    match word {
        "counts" => {
            let p = one(formulas, rest)?;
            Ok(counts(out, formulas, p)?)
        }
        "truth" => {
            let p = one(formulas, rest)?;
            Ok(values(out, formulas, p)?)
        }
        "numbers" => numbers(out, formulas, rest),
        "both" => {
            let (p, q) = two(formulas, rest)?;
            both(alloc, out, formulas, p, q)
        }
        "entails" => {
            let (p, q) = two(formulas, rest)?;
            write_answer(out, entails(alloc, formulas, p, q)?)
        }
        "steps" => {
            let (p, q) = two(formulas, rest)?;
            write_steps(out, entails(alloc, formulas, p, q)?)
        }
        "chain" => {
            let (p, q) = chain(formulas, rest.parse::<u32>().unwrap_or(0))?;
            write_answer(out, entails(alloc, formulas, p, q)?)
        }
        _ => Ok(out.push_str("no such word")?),
    }
}

/// What is found on a question, in a table of its own.
pub fn answer(alloc: Global, question: &str) -> Result<String, Stop> {
    let mut out = String::new(alloc);
    let mut formulas = Formulas::new(alloc)?;
    find(alloc, &mut out, &mut formulas, question)?;
    Ok(out)
}

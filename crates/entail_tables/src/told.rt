//! Answers as rows tell them.

use cx_base::{FormulaId, Stop};
use cx_derive::{Answer, Step};
use std::alloc::AllocError;

/// Adds numbers, each after a blank.
fn write_numbers(out: &mut String, numbers: &[FormulaId]) -> Result<(), AllocError> {
    for number in numbers {
        write!(out, " {}", number.0)?;
    }
    Ok(())
}

/// Adds a step: its rule, its sequent, and the numbers of its premises.
fn write_step(out: &mut String, step: &Step) -> Result<(), AllocError> {
    write!(out, "{:?}", step.rule)?;
    write_numbers(out, &step.left)?;
    out.push_str(" >")?;
    write_numbers(out, &step.right)?;
    out.push_str(" :")?;
    for number in &step.premises {
        write!(out, " {number}")?;
    }
    Ok(())
}

/// Adds the number of steps, or the atoms that are true.
pub fn write_answer(out: &mut String, answer: Answer) -> Result<(), Stop> {
    match &answer {
        Answer::Derived(found) => Ok(write!(out, "derived {}", found.steps().len())?),
        Answer::Separated(valuation) => {
            out.push_str("separated")?;
            Ok(write_numbers(out, valuation.atoms())?)
        }
    }
}

/// Adds the steps of a derivation.
pub fn write_steps(out: &mut String, answer: Answer) -> Result<(), Stop> {
    if let Answer::Derived(found) = &answer {
        for step in found.steps() {
            if !out.is_empty() {
                out.push_str("; ")?;
            }
            write_step(out, step)?;
        }
    }
    Ok(())
}

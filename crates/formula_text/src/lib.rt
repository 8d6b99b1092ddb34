//! Formulas from texts and by rules, for programs that try and time what is made of formulas.
#![tactic(auto)]

ghost use Rattle.std.specs.Prelude.{◌<◌, ◌≤◌, length, IfOk};
ghost use Rattle.cx_prop.specs.Table.{Has};

use cx_base::{FormulaId, NodeId, Stop, TermId};
use cx_prop::Formulas;

/// The formula that a text spells with its operators first, and the text after it: `&` and `|`, `A` to `Z` for an atom
/// with a mapping of the first position to that term, and any other byte for an atom without one.
pub fn read<'t>(formulas: &mut Formulas, text: &'t [u8]) -> Result<(FormulaId, &'t [u8]), Stop>
    ensures has { IfOk result (λ r. Has formulas.new r.0) }
    ensures grows { length formulas.old ≤ length formulas.new }
    ensures rest { IfOk result (λ r. length r.1.now ≤ length text.now) }
    ensures shorter { 0 < length text.now → IfOk result (λ r. length r.1.now < length text.now) }
{
    match text {
        [] => Ok((formulas.atom(NodeId(0), &[])?, text)),
        [b'&', rest @ ..] => {
            let (p, rest) = read(formulas, rest)?;
            let (q, rest) = read(formulas, rest)?;
            Ok((formulas.and(p, q)?, rest))
        }
        [b'|', rest @ ..] => {
            let (p, rest) = read(formulas, rest)?;
            let (q, rest) = read(formulas, rest)?;
            Ok((formulas.or(p, q)?, rest))
        }
        [name @ b'A'..=b'Z', rest @ ..] => {
            let map = [(0, TermId(*name as usize))];
            Ok((formulas.atom(NodeId(0), &map)?, rest))
        }
        [name, rest @ ..] => Ok((formulas.atom(NodeId(*name as u32), &[])?, rest)),
    }
}

/// The conjunction of the atoms from 0 up to a number, joined from the left.
pub fn conjunction(formulas: &mut Formulas, last: u32) -> Result<FormulaId, Stop>
    ensures has { IfOk result (Has formulas.new) }
    ensures grows { length formulas.old ≤ length formulas.new }
{
    let mut all = formulas.atom(NodeId(0), &[])?;
    for n in 1..=last {
        let atom = formulas.atom(NodeId(n), &[])?;
        all = formulas.and(all, atom)?;
    }
    Ok(all)
}

/// The same, joined from the right.
pub fn conjunction_from_the_right(formulas: &mut Formulas, last: u32) -> Result<FormulaId, Stop>
    ensures has { IfOk result (Has formulas.new) }
    ensures grows { length formulas.old ≤ length formulas.new }
{
    let mut all = formulas.atom(NodeId(last), &[])?;
    for n in (0..last).rev() {
        let atom = formulas.atom(NodeId(n), &[])?;
        all = formulas.and(atom, all)?;
    }
    Ok(all)
}

/// The disjunction of the atoms from a number up to another, the former last.
pub fn disjunction(formulas: &mut Formulas, first: u32, last: u32) -> Result<FormulaId, Stop>
    ensures has { IfOk result (Has formulas.new) }
    ensures grows { length formulas.old ≤ length formulas.new }
{
    let mut all = formulas.atom(NodeId(first), &[])?;
    for n in first..last {
        let atom = formulas.atom(NodeId(n + 1), &[])?;
        all = formulas.or(atom, all)?;
    }
    Ok(all)
}

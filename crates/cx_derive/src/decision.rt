ghost use Rattle.std.specs.Prelude.{[], ◌∷◌, ◌≡◌, ◌↔◌, IfOk, OnErr, IsErrOf};
ghost use Rattle.cx_base.specs.declared.stop.Stop.TheVariants.{NoMemory};
ghost use Rattle.cx_prop.specs.Table.{Has, formula_at};
ghost use Rattle.cx_prop.specs.Truth.{Entails};
ghost use Rattle.cx_derive.specs.Answers.{HasNumbers, IsAnswer, IsDerived, Shows};

use crate::answer::Answer;
use crate::goal::Goal;
use crate::search::explore;
use crate::steps::steps;
use cx_base::{FormulaId, Stop};
use cx_prop::{Formulas, Valuation};
use indexmap::IndexSet;
use std::alloc::Global;

/// A list of one number.
fn only(alloc: Global, f: FormulaId) -> Result<Vec<FormulaId>, Stop>
    ensures ok { IfOk result (λ v. v.items ≡ f ∷ []) }
    ensures only_memory { OnErr result (IsErrOf result NoMemory) }
{
    let mut list = Vec::new(alloc);
    list.push(f)?;
    Ok(list)
}

/// Whether a formula entails another, as one constraint does where it subsumes another ([temp.constr.order]): the
/// canonical derivation where it does, and else the left atoms of the first leaf of the search that no rule closes,
/// which make the first formula true and the second false. It refuses for want of memory alone. A derivation has a
/// step for each distinct sequent that the search comes to.
pub fn entails(
    alloc: Global,
    formulas: &Formulas,
    p: FormulaId,
    q: FormulaId,
) -> Result<Answer, Stop>
    requires left { Has formulas.now p }
    requires right { Has formulas.now q }
    ensures answer { IfOk result (IsAnswer formulas.now (formula_at formulas.now p) (formula_at formulas.now q)) }
    ensures decides { IfOk result (λ a. IsDerived a ↔ Entails (formula_at formulas.now p) (formula_at formulas.now q)) }
    ensures shows { IfOk result (Shows formulas.now (formula_at formulas.now p) (formula_at formulas.now q)) }
    ensures numbers { IfOk result (HasNumbers formulas.now) }
    ensures only_memory { OnErr result (IsErrOf result NoMemory) }
{
    formulas.numbers_are_unique();
    let left = only(alloc, p)?;
    let right = only(alloc, q)?;
    let mut found = IndexSet::new(alloc);
    match explore(alloc, formulas, &mut found, Goal { left, right })? {
        None => Ok(Answer::Derived(steps(alloc, formulas, &found)?)),
        Some(leaf) => Ok(Answer::Separated(Valuation::new(leaf.left))),
    }
}

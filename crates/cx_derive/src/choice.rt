ghost use Rattle.std.specs.Prelude.{◌≡◌, ◌<◌, ◌+◌, ◌++◌, [], IsTrue, length, take, drop, OnOk, OnErr, IfOk, IsErrOf};
ghost use Rattle.std.specs.List.{list_any};
ghost use Rattle.cx_base.specs.declared.stop.Stop.TheVariants.{NoMemory};
ghost use Rattle.cx_numbered.specs.Numbered.{HasEachOnce};
ghost use Rattle.cx_derive.specs.Lists.{is_among, with_all, without_repeats};
ghost use Rattle.cx_derive.specs.Search.{chosen as chosen_of};
ghost use Rattle.cx_prop.specs.Interned.{same_interned};
ghost use Rattle.cx_derive.specs.Goals.{same_number, HasGoal, HasChoice, IsPlace, OnLeft, OnRight, sequent_of, choice_of};

use crate::goal::Goal;
use crate::leftmost::{Split, leftmost};
use crate::rule::SequentRule;
use cx_base::{FormulaId, Stop};
use cx_prop::Formulas;
use indexmap::IndexSet;
use std::alloc::Global;

/// The premises that a rule asks for.
#[derive(Debug, Drop)]
pub enum Premises {
    None,
    One(Goal),
    Two(Goal, Goal),
}

/// Adds numbers to a set, in their order.
fn add(set: &mut IndexSet<FormulaId>, numbers: &[FormulaId]) -> Result<(), Stop>
    ensures ok { OnOk result (set.new.keys ≡ with_all same_number set.old.keys numbers.now) }
    ensures only_memory { OnErr result (IsErrOf result NoMemory) }
{
    for f in numbers {
        set.insert(*f)?;
    }
    Ok(())
}

/// The list with parts in the place of a formula, without repeats.
fn in_place(
    alloc: Global,
    list: &[FormulaId],
    at: usize,
    parts: &[FormulaId],
) -> Result<Vec<FormulaId>, Stop>
    requires { at < length list.now }
    ensures ok { IfOk result (λ v. v.items ≡ without_repeats same_number (take at list.now ++ parts.now ++ drop (at + 1) list.now)) }
    ensures only_memory { OnErr result (IsErrOf result NoMemory) }
{
    let mut made = IndexSet::with_capacity(alloc, list.len())?;
    add(&mut made, &list[..at])?;
    add(&mut made, parts)?;
    add(&mut made, &list[at + 1..])?;
    Ok(Vec::from_slice(alloc, made.as_slice())?)
}

/// Whether a number stands in both lists.
fn shares(alloc: Global, left: &[FormulaId], right: &[FormulaId]) -> Result<bool, Stop>
    ensures ok { IfOk result (λ shared. shared ≡ list_any (is_among same_number right.now) left.now) }
    ensures only_memory { OnErr result (IsErrOf result NoMemory) }
{
    let mut numbers = IndexSet::with_capacity(alloc, right.len())?;
    add(&mut numbers, right)?;
    for f in left {
        if numbers.contains(f) {
            return Ok(true);
        }
    }
    Ok(false)
}

/// The goal with another left side.
fn with_left(alloc: Global, goal: &Goal, left: Vec<FormulaId>) -> Result<Goal, Stop>
    ensures left { IfOk result (λ g. g.left.items ≡ left.items) }
    ensures right { IfOk result (λ g. g.right.items ≡ goal.now.right.items) }
    ensures only_memory { OnErr result (IsErrOf result NoMemory) }
{
    let right = Vec::from_slice(alloc, &goal.right)?;
    Ok(Goal { left, right })
}

/// The goal with another right side.
fn with_right(alloc: Global, goal: &Goal, right: Vec<FormulaId>) -> Result<Goal, Stop>
    ensures left { IfOk result (λ g. g.left.items ≡ goal.now.left.items) }
    ensures right { IfOk result (λ g. g.right.items ≡ right.items) }
    ensures only_memory { OnErr result (IsErrOf result NoMemory) }
{
    let left = Vec::from_slice(alloc, &goal.left)?;
    Ok(Goal { left, right })
}

/// The rule that fits on the left, with its premises.
fn on_left(
    alloc: Global,
    goal: &Goal,
    split: Split,
) -> Result<Option<(SequentRule, Premises)>, Stop>
    requires { IsPlace goal.now.left.items split }
    ensures ok { IfOk result (λ c. OnLeft goal.now split c) }
    ensures only_memory { OnErr result (IsErrOf result NoMemory) }
{
    match split {
        Split::Atoms => Ok(None),
        Split::Both(at, p, q) => {
            let left = in_place(alloc, &goal.left, at, &[p, q])?;
            let premise = with_left(alloc, goal, left)?;
            Ok(Some((SequentRule::AndL, Premises::One(premise))))
        }
        Split::Either(at, p, q) => {
            let left = in_place(alloc, &goal.left, at, &[p])?;
            let first = with_left(alloc, goal, left)?;
            let left = in_place(alloc, &goal.left, at, &[q])?;
            let second = with_left(alloc, goal, left)?;
            Ok(Some((SequentRule::OrL, Premises::Two(first, second))))
        }
    }
}

/// The rule that fits on the right, with its premises.
fn on_right(
    alloc: Global,
    goal: &Goal,
    split: Split,
) -> Result<Option<(SequentRule, Premises)>, Stop>
    requires { IsPlace goal.now.right.items split }
    ensures ok { IfOk result (λ c. OnRight goal.now split c) }
    ensures only_memory { OnErr result (IsErrOf result NoMemory) }
{
    match split {
        Split::Atoms => Ok(None),
        Split::Both(at, p, q) => {
            let right = in_place(alloc, &goal.right, at, &[p])?;
            let first = with_right(alloc, goal, right)?;
            let right = in_place(alloc, &goal.right, at, &[q])?;
            let second = with_right(alloc, goal, right)?;
            Ok(Some((SequentRule::AndR, Premises::Two(first, second))))
        }
        Split::Either(at, p, q) => {
            let right = in_place(alloc, &goal.right, at, &[p, q])?;
            let premise = with_right(alloc, goal, right)?;
            Ok(Some((SequentRule::OrR, Premises::One(premise))))
        }
    }
}

/// The rule that the search takes at a goal, with its premises; none fits an open leaf.
pub fn chosen(
    alloc: Global,
    formulas: &Formulas,
    goal: &Goal,
) -> Result<Option<(SequentRule, Premises)>, Stop>
    requires distinct { HasEachOnce formulas.now }
    requires goal { HasGoal formulas.now goal.now }
    ensures choice { IfOk result (λ c. choice_of formulas.now c ≡ chosen_of same_interned (sequent_of formulas.now goal.now)) }
    ensures has { IfOk result (HasChoice formulas.now) }
    ensures only_memory { OnErr result (IsErrOf result NoMemory) }
{
    if shares(alloc, &goal.left, &goal.right)? {
        return Ok(Some((SequentRule::Id, Premises::None)));
    }
    let left = on_left(alloc, goal, leftmost(formulas, &goal.left))?;
    if left.is_some() {
        return Ok(left);
    }
    on_right(alloc, goal, leftmost(formulas, &goal.right))
}

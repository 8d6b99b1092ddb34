ghost use Rattle.std.specs.Prelude.{◌≡◌, [], ◌++◌, ◌∷◌, map, IfOk, OnOk, OnErr, IsErrOf};
ghost use Rattle.cx_base.specs.declared.stop.Stop.TheVariants.{NoMemory};
ghost use Rattle.cx_numbered.specs.Numbered.{HasEachOnce};
ghost use Rattle.cx_derive.specs.Search.{inferences, inference_in, number_among};
ghost use Rattle.cx_prop.specs.Interned.{same_interned};
ghost use Rattle.cx_derive.specs.Goals.{HasGoal, HasGoals, sequent_of, sequents_of, goals_of};
ghost use Rattle.cx_derive.specs.Answers.{HasStep, HasSteps, inference_of};

use crate::choice::{Premises, chosen};
use crate::deriv::{Deriv, Step};
use crate::goal::Goal;
use crate::rule::SequentRule;
use cx_base::Stop;
use cx_prop::Formulas;
use indexmap::IndexSet;
use std::alloc::Global;

/// The number of a goal among those that are found; how many there are where it is none of them.
fn number(formulas: &Formulas, found: &IndexSet<Goal>, goal: &Goal) -> usize
    requires distinct { HasEachOnce formulas.now }
    requires found { HasGoals formulas.now found.now.keys }
    requires goal { HasGoal formulas.now goal.now }
    ensures { result ≡ number_among same_interned (sequents_of formulas.now found.now.keys) (sequent_of formulas.now goal.now) }
{
    let _ = formulas;
    found.get_index_of(goal).unwrap_or(found.len())
}

/// The numbers of premises among the goals that are found.
fn numbers(
    alloc: Global,
    formulas: &Formulas,
    found: &IndexSet<Goal>,
    premises: &Premises,
) -> Result<Vec<usize>, Stop>
    requires distinct { HasEachOnce formulas.now }
    requires found { HasGoals formulas.now found.now.keys }
    requires premises { HasGoals formulas.now (goals_of premises.now) }
    ensures ok { IfOk result (λ v. v.items ≡ map (number_among same_interned (sequents_of formulas.now found.now.keys)) (sequents_of formulas.now (goals_of premises.now))) }
    ensures only_memory { OnErr result (IsErrOf result NoMemory) }
{
    let mut numbers = Vec::new(alloc);
    match premises {
        Premises::None => Ok(numbers),
        Premises::One(goal) => {
            numbers.push(number(formulas, found, goal))?;
            Ok(numbers)
        }
        Premises::Two(first, second) => {
            numbers.push(number(formulas, found, first))?;
            numbers.push(number(formulas, found, second))?;
            Ok(numbers)
        }
    }
}

/// The step of a goal in the derivation of those that are found.
fn step(
    alloc: Global,
    formulas: &Formulas,
    found: &IndexSet<Goal>,
    goal: &Goal,
) -> Result<Step, Stop>
    requires distinct { HasEachOnce formulas.now }
    requires found { HasGoals formulas.now found.now.keys }
    requires goal { HasGoal formulas.now goal.now }
    ensures ok { IfOk result (λ s. inference_of formulas.now s ≡ inference_in same_interned (sequents_of formulas.now found.now.keys) (sequent_of formulas.now goal.now)) }
    ensures has { IfOk result (HasStep formulas.now) }
    ensures only_memory { OnErr result (IsErrOf result NoMemory) }
{
    let left = Vec::from_slice(alloc, &goal.left)?;
    let right = Vec::from_slice(alloc, &goal.right)?;
    let Some((rule, premises)) = chosen(alloc, formulas, goal)? else {
        let premises = Vec::new(alloc);
        return Ok(Step {
            rule: SequentRule::Id,
            left,
            right,
            premises,
        });
    };
    let premises = numbers(alloc, formulas, found, &premises)?;
    Ok(Step {
        rule,
        left,
        right,
        premises,
    })
}

/// The steps of the goals that are found, in their order.
pub fn steps(alloc: Global, formulas: &Formulas, found: &IndexSet<Goal>) -> Result<Deriv, Stop>
    requires distinct { HasEachOnce formulas.now }
    requires found { HasGoals formulas.now found.now.keys }
    ensures ok { IfOk result (λ d. map (inference_of formulas.now) d ≡ inferences same_interned (sequents_of formulas.now found.now.keys)) }
    ensures has { IfOk result (HasSteps formulas.now) }
    ensures only_memory { OnErr result (IsErrOf result NoMemory) }
{
    let mut steps = Vec::new(alloc);
    for goal in found.as_slice() {
        steps.push(step(alloc, formulas, found, goal)?)?;
    }
    Ok(Deriv::new(steps))
}

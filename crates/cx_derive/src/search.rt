ghost use Rattle.std.specs.Prelude.{◌≡◌, [], ◌∷◌, ◌++◌, OnOk, OnErr, IfOk, IsErrOf};
ghost use Rattle.cx_base.specs.declared.stop.Stop.TheVariants.{NoMemory};
ghost use Rattle.cx_numbered.specs.Numbered.{HasEachOnce};
ghost use Rattle.cx_derive.specs.declared.task.Task.TheVariants as task;
ghost use Rattle.cx_derive.specs.Goals.{HasGoal, HasGoals, Explored, Explores, sequent_of, goals_of};
ghost use Rattle.cx_derive.specs.Tasks.{onto, Goes};

use crate::choice::{Premises, chosen};
use crate::goal::Goal;
use crate::task::Task;
use cx_base::Stop;
use cx_prop::Formulas;
use indexmap::IndexSet;
use std::alloc::Global;

/// Puts a goal off until its premises are searched, the first of them first.
fn put_off(tasks: &mut Vec<Task>, goal: Goal, premises: Premises) -> Result<(), Stop>
    ensures ok { OnOk result (tasks.new.items ≡ onto (tasks.old.items ++ task.Note goal ∷ []) (goals_of premises)) }
    ensures only_memory { OnErr result (IsErrOf result NoMemory) }
{
    tasks.push(Task::Note(goal))?;
    match premises {
        Premises::None => Ok(()),
        Premises::One(only) => Ok(tasks.push(Task::Search(only))?),
        Premises::Two(first, second) => {
            tasks.push(Task::Search(second))?;
            Ok(tasks.push(Task::Search(first))?)
        }
    }
}

/// Goes on from a goal, where it is not found already: puts it off behind its premises, or gives it back where
/// no rule fits it.
fn go_on(
    alloc: Global,
    formulas: &Formulas,
    found: &IndexSet<Goal>,
    tasks: &mut Vec<Task>,
    goal: Goal,
) -> Result<Option<Goal>, Stop>
    requires distinct { HasEachOnce formulas.now }
    requires goal { HasGoal formulas.now goal }
    requires found { HasGoals formulas.now found.now.keys }
    ensures ok { IfOk result (Goes formulas.now found.now.keys goal tasks.old.items tasks.new.items) }
    ensures only_memory { OnErr result (IsErrOf result NoMemory) }
{
    if found.contains(&goal) {
        return Ok(None);
    }
    let Some((_, premises)) = chosen(alloc, formulas, &goal)? else {
        return Ok(Some(goal));
    };
    put_off(tasks, goal, premises)?;
    Ok(None)
}

/// Goes through the search from a goal: adds the sequents that it comes to, premises first, to those that are
/// found, or gives the first open leaf.
pub fn explore(
    alloc: Global,
    formulas: &Formulas,
    found: &mut IndexSet<Goal>,
    goal: Goal,
) -> Result<Option<Goal>, Stop>
    requires distinct { HasEachOnce formulas.now }
    requires goal { HasGoal formulas.now goal }
    requires found { Explored formulas.now found.old.keys }
    ensures explored { OnOk result (Explored formulas.now found.new.keys) }
    ensures ok { IfOk result (Explores formulas.now found.old.keys found.new.keys (sequent_of formulas.now goal)) }
    ensures only_memory { OnErr result (IsErrOf result NoMemory) }
{
    let mut tasks = Vec::new(alloc);
    tasks.push(Task::Search(goal))?;
    while let Some(task) = tasks.pop() {
        match task {
            Task::Note(goal) => {
                found.insert(goal)?;
            }
            Task::Search(goal) => {
                if let Some(leaf) = go_on(alloc, formulas, found, &mut tasks, goal)? {
                    return Ok(Some(leaf));
                }
            }
        }
    }
    Ok(None)
}

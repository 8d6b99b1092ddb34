ghost use Rattle.std.specs.Prelude.{◌≡◌, ◌++◌, fold};
ghost use Rattle.std.specs.Hash as fed;
ghost use Rattle.cx_derive.specs.Goals.{number_writes, goals_alike};

use cx_base::FormulaId;
use std::hash::{Hash, Hasher};

/// A sequent of the search: the numbers of the formulas on the left and on the right.
#[derive(Debug, PartialEq, Eq, Drop)]
pub struct Goal {
    pub left: Vec<FormulaId>,
    pub right: Vec<FormulaId>,
}

fn hash_numbers<H: Hasher>(numbers: &[FormulaId], state: &mut H)
    ensures { state.new ≡ fold H.write state.old (fed.slice number_writes numbers.now) }
{
    numbers.len().hash(state);
    for number in numbers {
        number.0.hash(state);
    }
}

impl Hash for Goal {
    ghost hash_input = { λ g. fed.slice number_writes g.left.items ++ fed.slice number_writes g.right.items };

    ghost respects_eq = { goals_alike.fed };

    fn hash<H: Hasher>(&self, state: &mut H) {
        hash_numbers(&self.left, state);
        hash_numbers(&self.right, state);
    }
}

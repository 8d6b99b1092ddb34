use crate::rule::SequentRule;
use cx_base::FormulaId;
use std::marker::Model;

/// A step of a derivation: a sequent, by a rule from the steps whose numbers are its premises.
#[derive(Debug, Drop)]
pub struct Step {
    pub rule: SequentRule,
    pub left: Vec<FormulaId>,
    pub right: Vec<FormulaId>,
    pub premises: Vec<usize>,
}

/// A derivation: its steps, premises first.
#[derive(Debug, Drop)]
pub struct Deriv {
    steps: Vec<Step>,
}

impl Model for Deriv {
    ghost use Rattle.std.specs.Prelude.{List};
    ghost use Rattle.cx_derive.specs.declared.deriv.Step.{Step};

    ghost Value = { List Step };

    ghost view = { λ d. d.steps.items };
}

impl Deriv {
    ghost use Rattle.std.specs.Prelude.{◌≡◌};

    /// The derivation of these steps. Takes no memory.
    pub fn new(steps: Vec<Step>) -> Deriv
        ensures { result ≡ steps.items }
    {
        Deriv { steps }
    }

    /// Its steps. Takes no memory.
    pub fn steps(&self) -> &[Step]
        ensures { result.now ≡ self.now }
    {
        &self.steps
    }

    /// The list of its steps. Takes no memory.
    pub fn into_steps(self) -> Vec<Step>
        ensures { result.items ≡ self }
    {
        self.steps
    }
}

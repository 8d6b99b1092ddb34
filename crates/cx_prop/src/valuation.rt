ghost use Rattle.std.specs.Prelude.{◌≡◌};

use cx_base::FormulaId;
use std::marker::Model;

/// A valuation: the numbers of the atoms that are true; all others are false.
#[derive(Debug, Drop)]
pub struct Valuation {
    atoms: Vec<FormulaId>,
}

impl Model for Valuation {
    ghost use Rattle.std.specs.Prelude.{List};
    ghost use Rattle.cx_base.specs.declared.numbers.FormulaId.{FormulaId};

    ghost Value = { List FormulaId };

    ghost view = { λ v. v.atoms.items };
}

impl Valuation {
    /// The valuation under which just these atoms are true. Takes no memory.
    pub fn new(atoms: Vec<FormulaId>) -> Valuation
        ensures { result ≡ atoms.items }
    {
        Valuation { atoms }
    }

    /// The atoms that are true. Takes no memory.
    pub fn atoms(&self) -> &[FormulaId]
        ensures { result.now ≡ self.now }
    {
        &self.atoms
    }

    /// The list of the atoms that are true. Takes no memory.
    pub fn into_atoms(self) -> Vec<FormulaId>
        ensures { result.items ≡ self }
    {
        self.atoms
    }
}

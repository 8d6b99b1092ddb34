ghost use Rattle.std.specs.Prelude.{◌≡◌};
ghost use Rattle.cx_derive.specs.Sequents.{leftmost as leftmost_of};
ghost use Rattle.cx_derive.specs.Goals.{HasAll, SplitsIn, formulas_at, split_of};

use cx_base::FormulaId;
use cx_prop::{Formulas, Part};

/// Where a list has its leftmost compound formula, and the operands of that formula.
#[derive(Clone, Copy, Debug)]
pub enum Split {
    Atoms,
    Both(usize, FormulaId, FormulaId),
    Either(usize, FormulaId, FormulaId),
}

/// The leftmost compound formula of a list.
pub fn leftmost(formulas: &Formulas, list: &[FormulaId]) -> Split
    requires { HasAll formulas.now list.now }
    ensures split { split_of formulas.now list.now result ≡ leftmost_of (formulas_at formulas.now list.now) }
    ensures inside { SplitsIn formulas.now list.now result }
{
    for (at, f) in list.iter().enumerate() {
        match formulas.part(*f) {
            Part::Atom(_, _, _) => {}
            Part::And(p, q) => return Split::Both(at, p, q),
            Part::Or(p, q) => return Split::Either(at, p, q),
        }
    }
    Split::Atoms
}

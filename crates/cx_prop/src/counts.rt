/// The clauses of a formula's disjunctive and conjunctive normal forms and the atoms of its tree, each at most
/// 2^64 - 1.
#[derive(Clone, Copy, Debug, PartialEq, Eq)]
pub struct Counts {
    pub dnf: u64,
    pub cnf: u64,
    pub atoms: u64,
}

impl Counts {
    ghost use Rattle.std.specs.Prelude.{◌≡◌};
    ghost use Rattle.cx_prop.specs.Counting.{counts_of};
    ghost use Rattle.cx_prop.specs.Formula.{Formula, And, Or};
    ghost use Rattle.cx_prop.specs.Interned.{Interned};

    /// The counts of an atom.
    pub(crate) const ATOM: Counts = Counts {
        dnf: 1,
        cnf: 1,
        atoms: 1,
    };

    /// The counts of a conjunction.
    pub(crate) fn and(self, other: Counts) -> Counts
        ensures { (p q : Formula Interned) → self ≡ counts_of p → other ≡ counts_of q → result ≡ counts_of (And p q) }
    {
        Counts {
            dnf: self.dnf.saturating_mul(other.dnf),
            cnf: self.cnf.saturating_add(other.cnf),
            atoms: self.atoms.saturating_add(other.atoms),
        }
    }

    /// The counts of a disjunction.
    pub(crate) fn or(self, other: Counts) -> Counts
        ensures { (p q : Formula Interned) → self ≡ counts_of p → other ≡ counts_of q → result ≡ counts_of (Or p q) }
    {
        Counts {
            dnf: self.dnf.saturating_add(other.dnf),
            cnf: self.cnf.saturating_mul(other.cnf),
            atoms: self.atoms.saturating_add(other.atoms),
        }
    }
}

use crate::deriv::Deriv;
use cx_prop::Valuation;

/// Whether a formula entails another, with what shows it.
#[derive(Debug, Drop)]
pub enum Answer {
    /// It does: the canonical derivation.
    Derived(Deriv),
    /// It does not: the atoms that are true under a valuation that separates the two.
    Separated(Valuation),
}

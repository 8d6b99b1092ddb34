use cx_base::{FormulaId, NodeId, TermId};

/// The top of a formula.
#[derive(Clone, Copy, Debug)]
pub enum Part<'t> {
    /// An atom: its number, the node of its expression, and its mapping.
    Atom(usize, NodeId, &'t [(u32, TermId)]),
    /// A conjunction of two formulas.
    And(FormulaId, FormulaId),
    /// A disjunction of two formulas.
    Or(FormulaId, FormulaId),
}

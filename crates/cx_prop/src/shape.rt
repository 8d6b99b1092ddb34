use crate::counts::Counts;
use cx_base::NodeId;

/// The top of a formula: the node of its atom with the number of its mapping, or the numbers of its two operands.
#[derive(Clone, Copy, Debug, PartialEq, Eq, Hash)]
pub enum Shape {
    Atom(NodeId, usize),
    And(usize, usize),
    Or(usize, usize),
}

/// What is noted of a formula: its counts, and how many atoms stand in the table before it.
#[derive(Clone, Copy, Debug)]
pub struct Noted {
    pub counts: Counts,
    pub atoms: usize,
}

/// A rule of the sequent calculus for conjunction and disjunction.
#[derive(Clone, Copy, Debug, PartialEq, Eq)]
pub enum SequentRule {
    /// A formula stands on both sides.
    Id,
    /// The leftmost compound formula on the left is a conjunction: its operands stand in its place.
    AndL,
    /// The leftmost compound formula on the left is a disjunction: each operand in turn stands in its place.
    OrL,
    /// The leftmost compound formula on the right is a disjunction: its operands stand in its place.
    OrR,
    /// The leftmost compound formula on the right is a conjunction: each operand in turn stands in its place.
    AndR,
}

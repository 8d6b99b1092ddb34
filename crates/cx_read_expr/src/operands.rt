use cx_productions::Calling;
use cx_trees::Expr;

/// An operand, and whether a call may follow it ([expr.call]).
#[derive(Drop)]
pub struct Operand<'s> {
    pub tree: Box<Expr<'s>>,
    pub calling: Calling,
}

/// An operator on one value ([expr.unary.op]).
#[derive(Clone, Copy, Debug, PartialEq, Eq)]
pub enum UnaryOperator {
    Minus,
    Complement,
    Not,
}

/// An operator on two values that gives one of their type ([expr.mul] to [expr.shift], [expr.bit.and] to [expr.or]).
#[derive(Clone, Copy, Debug, PartialEq, Eq)]
pub enum BinaryOperator {
    Multiply,
    Divide,
    Remainder,
    Add,
    Subtract,
    ShiftLeft,
    ShiftRight,
    BitAnd,
    BitXor,
    BitOr,
}

/// A comparison of two values ([expr.rel], [expr.eq]).
#[derive(Clone, Copy, Debug, PartialEq, Eq)]
pub enum Comparison {
    Less,
    LessEqual,
    Greater,
    GreaterEqual,
    Equal,
    NotEqual,
}

/// An operator that makes what stands at a place one more or one less ([expr.pre.incr], [expr.post.incr]).
#[derive(Clone, Copy, Debug, PartialEq, Eq)]
pub enum Update {
    Increment,
    Decrement,
}

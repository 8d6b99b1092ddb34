/// A scalar type: `int` and `unsigned` have 32 bits, `long long` and `unsigned long long` 64.
#[derive(Clone, Copy, Debug, PartialEq, Eq, Hash)]
pub enum Scalar {
    Bool,
    Int,
    Unsigned,
    LongLong,
    ULongLong,
}

/// A value of a scalar type or of a struct.
#[derive(Debug, Drop)]
pub enum Value {
    /// A scalar: `val` is a value of `ty`, with 0 and 1 for a bool.
    Num { ty: Scalar, val: i128 },
    /// A struct: the values of its fields in order.
    Struct(Vec<Value>),
}

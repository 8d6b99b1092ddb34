use cx_base::Scalar;
use cx_machine::{BinaryOperator, Comparison, UnaryOperator, Update};

/// An expression: a call names its function by a C, a struct by an S, a global by a G. Parameters and locals are numbered
/// together, and fields in their struct.
#[derive(Drop)]
pub enum Expr<C, S, G> {
    Constant(Scalar, i128),
    Local(u32),
    Global(G),
    /// A field of a struct.
    Field(Box<Expr<C, S, G>>, S, u32),
    Call(C, Vec<Expr<C, S, G>>),
    /// `__out`
    Print(Box<Expr<C, S, G>>),
    /// A struct with the values of its fields.
    Struct(S, Vec<Expr<C, S, G>>),
    /// A scalar as another scalar.
    Convert(Scalar, Box<Expr<C, S, G>>),
    /// A cast to void.
    Discard(Box<Expr<C, S, G>>),
    /// A new object with this value.
    Temporary(Box<Expr<C, S, G>>),
    Unary(UnaryOperator, Box<Expr<C, S, G>>),
    Prefix(Update, Box<Expr<C, S, G>>),
    Postfix(Update, Box<Expr<C, S, G>>),
    Binary(BinaryOperator, Box<Expr<C, S, G>>, Box<Expr<C, S, G>>),
    Compare(Comparison, Box<Expr<C, S, G>>, Box<Expr<C, S, G>>),
    And(Box<Expr<C, S, G>>, Box<Expr<C, S, G>>),
    Or(Box<Expr<C, S, G>>, Box<Expr<C, S, G>>),
    /// A condition, then what stands where it is true, and where it is false.
    Choice(Box<Expr<C, S, G>>, Box<Expr<C, S, G>>, Box<Expr<C, S, G>>),
    /// A place, then the value that is put there.
    Assign(Box<Expr<C, S, G>>, Box<Expr<C, S, G>>),
    Compound(BinaryOperator, Box<Expr<C, S, G>>, Box<Expr<C, S, G>>),
}

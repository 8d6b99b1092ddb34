use cx_base::TermId;

/// The category of an expression's value ([basic.lval]).
#[derive(Clone, Copy, PartialEq, Eq)]
pub enum Cat {
    Lvalue,
    Xvalue,
    Prvalue,
}

/// The type and the category of an expression.
#[derive(Clone, Copy, PartialEq, Eq)]
pub struct Typed {
    pub ty: TermId,
    pub cat: Cat,
}

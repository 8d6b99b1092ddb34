use crate::expression::Expr;

/// A statement; a loop carries an L.
#[derive(Drop)]
pub enum Stmt<C, L, S, G> {
    /// The declaration of a local, by its number, with its initialiser.
    Variable(u32, Expr<C, S, G>),
    Expression(Expr<C, S, G>),
    If(Expr<C, S, G>, Vec<Stmt<C, L, S, G>>),
    IfElse(Expr<C, S, G>, Vec<Stmt<C, L, S, G>>, Vec<Stmt<C, L, S, G>>),
    /// A condition, a step that stands behind each turn, and a body.
    Loop(L, Expr<C, S, G>, Option<Expr<C, S, G>>, Vec<Stmt<C, L, S, G>>),
    Block(Vec<Stmt<C, L, S, G>>),
    Break,
    Continue,
    Return(Option<Expr<C, S, G>>),
}

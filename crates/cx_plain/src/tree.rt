use crate::operators::{BinaryOperator, UnaryOperator};
use cx_base::{List, Text};

/// A plain unit. What it mentions it names by its number in its list, counted from 0.
#[derive(Drop)]
pub struct PlainUnit {
    pub structs: List<Struct>,
    pub globals: List<Global>,
    pub functions: List<Function>,
}

/// A struct. No form of it is built yet, so there is none.
#[derive(Drop)]
pub enum Struct {}

/// A global constant. No form of it is built yet, so there is none.
#[derive(Drop)]
pub enum Global {}

/// A function without parameters whose result is an int.
#[derive(Debug, Drop)]
pub struct Function {
    /// The name in the source, which the plain name ends in.
    pub name: Text,
    pub body: Stmt,
}

/// A statement.
#[derive(Debug, Drop)]
pub enum Stmt {
    /// `return X;`
    Return(Expr),
}

/// An expression.
#[derive(Debug, Drop)]
pub enum Expr {
    /// A constant of type int.
    Constant(i32),
    /// A call of the function of this number.
    Call(u32),
    Unary(UnaryOperator, Box<Expr>),
    Binary(BinaryOperator, Box<Expr>, Box<Expr>),
}

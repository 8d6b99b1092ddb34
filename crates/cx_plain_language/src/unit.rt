use crate::statement::Stmt;
use crate::types::{Declared, Returns, Type};
use cx_base::{List, Scalar, Text};

/// A constant that a global is.
#[derive(Drop)]
pub enum Literal<S> {
    Number(Scalar, i128),
    Struct(S, Vec<Literal<S>>),
}

/// A field of a struct.
#[derive(Drop)]
pub struct Field {
    pub of: Type<u32>,
    pub name: Text,
}

/// A struct.
#[derive(Drop)]
pub struct Struct {
    pub name: Text,
    pub fields: List<Field>,
}

/// A global, which is a constant.
#[derive(Drop)]
pub struct Global {
    pub of: Type<u32>,
    pub name: Text,
    pub value: Literal<u32>,
}

/// A function whose calls carry a C, whose loops an L, whose struct types an S and whose globals a G. Parameters are
/// numbered from 0, and locals behind them.
#[derive(Drop)]
pub struct PlainFn<C, L, S, G> {
    pub name: Text,
    pub returns: Returns<S>,
    pub parameters: List<Declared<S>>,
    pub locals: List<Declared<S>>,
    pub body: Vec<Stmt<C, L, S, G>>,
}

/// A function of a unit: functions, structs and globals are named by their numbers.
pub type PlainFunction = PlainFn<u32, (), u32, u32>;

/// A plain unit.
#[derive(Drop)]
pub struct PlainUnit {
    pub structs: List<Struct>,
    pub globals: List<Global>,
    pub functions: List<PlainFunction>,
}

use cx_base::{Scalar, Text};

/// The type of an object; a struct is named by an S.
#[derive(Drop)]
pub enum Type<S> {
    Scalar(Scalar),
    Struct(S),
}

/// What a parameter, a local or a result is: a value of its own, or a reference to an object, `const` or not.
#[derive(Clone, Copy, Debug, PartialEq, Eq)]
pub enum Passing {
    Value,
    Reference,
    ConstReference,
}

/// A parameter or a local.
#[derive(Drop)]
pub struct Declared<S> {
    pub of: Type<S>,
    pub passing: Passing,
    pub name: Text,
}

/// The result of a function.
#[derive(Drop)]
pub enum Returns<S> {
    Void,
    Gives(Type<S>, Passing),
}

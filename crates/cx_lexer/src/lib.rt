//! The tokens of a unit ([lex], [next_token]): slices of its text, in order, each with its place.
#![tactic(auto)]

mod characters;
mod classes;
mod cursor;
mod kinds;
mod laws;
mod lexing;
mod literals;
mod pieces;
mod scan;
mod skipped;
mod token;
mod words;

pub use laws::one_division;
pub use lexing::{lex, next_token};
pub use literals::literal;
pub use token::{Token, TokenKind};

#[cfg(test)]
mod tests;

//! The tokens of a unit as its grammar sees them ([lex.token]): which reserved word or punctuator each one is.
#![tactic(auto)]

mod punctuator;
mod token;
mod word;

pub use punctuator::Punctuator;
pub use token::{Token, TokenKind};
pub use word::Word;

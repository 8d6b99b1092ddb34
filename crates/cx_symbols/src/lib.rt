//! Which reserved word or punctuator each token of the lexer is.
#![tactic(auto)]

mod symbols;

pub use symbols::with_symbol;

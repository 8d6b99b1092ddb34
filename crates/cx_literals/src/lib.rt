//! Literals ([lex.icon]): their type and their value.
#![tactic(auto)]

mod literals;

pub use literals::literal;

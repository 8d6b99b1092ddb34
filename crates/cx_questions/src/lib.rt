//! The definitions of the language's questions: what a type, a template argument, a call or a constraint means. There is
//! no code here but functions that do nothing, whose contracts are the laws of the definitions.
#![tactic(auto)]

mod laws;

pub use laws::entailment_is_truth;

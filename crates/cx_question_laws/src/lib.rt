//! The laws of the definitions of the language's questions.
#![tactic(auto)]

mod algorithms;
mod heights;

pub use algorithms::{
    best_is_better, better_is_asymmetric, deduction_is_least, subsumption_is_entailment,
    worse_is_strict,
};
pub use heights::{answers_stay, verdicts_stay};

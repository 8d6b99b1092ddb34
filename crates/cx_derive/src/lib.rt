//! Whether a formula entails another, decided with evidence: a derivation, or a valuation that separates them.
#![tactic(auto)]

mod answer;
mod choice;
mod decision;
mod deriv;
mod goal;
mod laws;
mod leftmost;
mod rule;
mod search;
mod steps;
mod task;

pub use answer::Answer;
pub use decision::entails;
pub use deriv::{Deriv, Step};
pub use laws::{
    canonical_derivations_are_right, renaming_keeps_derivations, right_derivations_entail,
    search_goes_by_rules,
};
pub use rule::SequentRule;

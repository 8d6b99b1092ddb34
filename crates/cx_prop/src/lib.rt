//! Formulas, the normal forms of constraints, in a table where equal formulas have one number; their truth
//! and their counts; and the law that subsumption by clauses is entailment.
#![tactic(auto)]

mod counts;
mod formulas;
mod laws;
mod part;
mod placing;
mod shape;
mod valuation;

pub use counts::Counts;
pub use formulas::Formulas;
pub use laws::{
    counts_pass_alike, equality_is_decided, renaming_keeps_formulas, subsumption_is_entailment,
};
pub use part::Part;
pub use valuation::Valuation;

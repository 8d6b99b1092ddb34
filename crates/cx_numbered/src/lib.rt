//! Numbered lists, as definitions and laws: tables that keep one number for each item are seen as such a list.
#![tactic(auto)]

mod laws;

pub use laws::{growth_is_an_order, putting_gives_a_number};

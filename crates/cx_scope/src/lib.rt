//! Scopes ([basic.scope]): which names are known at a place of a unit, and what each of them is.
#![tactic(auto)]

mod frame;
mod laws;
mod name_kind;
mod scope;

pub use laws::{
    declaring_keeps_other_names, declaring_keeps_outer_scopes, declaring_sets_a_name,
    entering_keeps_names, leaving_undoes_entering,
};
pub use name_kind::NameKind;
pub use scope::Scope;

#[cfg(test)]
mod tests;

//! Scopes ([basic.scope]): which names are known at a place of a unit, and what each of them is.
#![tactic(auto)]

mod frame;
mod scope;

pub use scope::Scope;

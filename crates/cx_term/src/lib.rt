//! One number for each tree: types, template arguments and dependent expressions.
#![tactic(auto)]

mod count;
mod laws;
mod node;
mod terms;
mod typed;
mod word;

pub use laws::{
    equality_is_decided, extending_is_an_order, extending_keeps_trees, sizes_are_bounded,
};
pub use node::Node;
pub use terms::Terms;
pub use typed::{Cat, Typed};
pub use word::Word;

//! Names ([basic.scope], [basic.lookup.unqual]): what a name can be, and the scopes that hold names.
#![tactic(auto)]

mod name_kind;

pub use name_kind::NameKind;

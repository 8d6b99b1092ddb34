//! Reads statements ([stmt.stmt]).
#![tactic(auto)]

mod auto;
mod calls;
mod head;
mod init;
mod jump;
mod open;
mod opened;
mod parse;
mod place;
mod statement;
mod text;
mod variable;

pub use auto::{read_auto_behind, read_constraint};
pub use calls::{read_block, read_stmt};
pub use init::read_init;
pub use jump::read_assertion;
pub use parse::parse_stmt;

use cx_base::{Fault, Limit, List, Place};

/// What a call decides.
#[derive(Debug, Drop)]
pub enum Decision {
    /// The words are no command.
    NoCommand,
    /// The unit is translated to this text.
    Translated(List<u8>),
    /// The unit has a fault.
    Refused(Fault),
    /// The unit passes a limit.
    Passed(Limit, Place),
    /// Reading the input failed.
    Unread,
    /// Memory ran out.
    OutOfMemory,
}

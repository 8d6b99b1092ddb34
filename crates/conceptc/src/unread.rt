/// Why the input was not read.
#[derive(Clone, Copy, Debug, PartialEq, Eq)]
pub enum Unread {
    /// It has more bytes than a unit may have.
    TooLong,
    /// Reading failed.
    Faulty,
    /// Memory ran out.
    OutOfMemory,
}

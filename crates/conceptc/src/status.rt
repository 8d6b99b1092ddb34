/// How a call of the compiler ends. The number of each is the exit code of the program.
#[derive(Clone, Copy, Debug, PartialEq, Eq)]
pub enum Status {
    Done,
    IllFormed,
    Usage,
    Limit,
    ReadFault,
    WriteFault,
    NoMemory,
    Rejected,
    Undefined,
    Running,
}

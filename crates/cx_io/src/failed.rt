/// A read or a put failed: the source or the sink counted a fault.
#[derive(Clone, Copy, Debug, PartialEq, Eq)]
pub struct Failed;

/// Whether a call may follow an operand ([expr.call]).
#[derive(Clone, Copy, Debug, PartialEq, Eq)]
pub enum Calling {
    Never,
    May,
    /// A function template with a list of arguments is called.
    Must,
}

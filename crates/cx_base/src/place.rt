/// A place in a unit: the line and the column of a byte, both counted from 1, columns in bytes.
///
/// The place 0:0 stands for no byte: it is that of a limit that the whole input passes.
#[derive(Clone, Copy, Debug, Default, PartialEq, Eq)]
pub struct Place {
    pub line: u32,
    pub col: u32,
}

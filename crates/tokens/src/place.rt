/// A place in a text.
#[derive(Clone, Copy, Debug, PartialEq, Eq)]
pub struct Place {
    /// The line, from 1. A line ends at LF.
    pub line: u32,
    /// The column, from 1, which counts bytes.
    pub column: u32,
}

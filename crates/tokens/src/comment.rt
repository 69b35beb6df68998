/// Which lines of a text are comments, which are passed over.
#[derive(Clone, Copy, Debug, PartialEq, Eq)]
pub enum Comment {
    /// No line.
    Never,
    /// The lines whose first byte that is not a blank is `#`.
    Hash,
    /// The lines whose first byte that is not a blank is `c`.
    LetterC,
}

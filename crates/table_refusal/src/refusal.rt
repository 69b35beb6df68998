use crate::failure::Failure;

/// Why a document is no table.
#[derive(Clone, Copy, Debug, PartialEq, Eq)]
pub enum TableError {
    /// The bytes are no JSON.
    Json,
    /// The document is not of the form: its outline, or the first layer that is not.
    Shape { layer: Option<u32> },
    /// The first test of a law that fails.
    Law(Failure),
}

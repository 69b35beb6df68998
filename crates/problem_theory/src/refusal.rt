use table_refusal::TableError;
use tokens::InstanceError;

/// Why a text spells no instance.
#[derive(Clone, Copy, Debug, PartialEq, Eq)]
pub enum InstanceRefusal {
    /// The first fault of a text of tokens, and its place.
    Text(InstanceError),
    /// Why a document is no table of states.
    Table(TableError),
}

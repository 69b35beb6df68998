/// The answer to a put.
#[derive(Clone, Copy, Debug, PartialEq, Eq, Hash)]
pub enum Put {
    /// The state is the table's last entry now.
    Yes,
    /// The table has as many entries as its limit. Nothing changed.
    AtLimit,
}

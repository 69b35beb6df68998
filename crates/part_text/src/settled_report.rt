use part_reports::PartReport;

/// The report of a part that is settled.
#[derive(Debug, Drop)]
pub struct SettledReport {
    /// The part, and its best solution or none.
    pub report: PartReport,
    /// The distance: how far a better solution of the part may be above the value, from 0 to 2^50.
    pub within: i64,
}

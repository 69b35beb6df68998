/// A feasible solution with its value.
#[derive(Clone, Copy, Debug)]
pub struct Found<'w> {
    /// Its value, the greater the better.
    pub value: i64,
    /// Its decisions, one for each variable.
    pub decisions: &'w [u32],
}

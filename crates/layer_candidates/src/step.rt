/// A step: a decision after an earlier step, or after the prefix where that is 0. The steps are numbered from 1 on.
#[derive(Clone, Copy, Debug)]
pub struct Step {
    /// The step before.
    pub before: u32,
    /// The decision.
    pub decision: u32,
}

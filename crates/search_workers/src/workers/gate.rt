//! What a worker passes after its steps.

/// After which step a worker passes the gate.
#[derive(Clone, Copy, Debug, PartialEq, Eq, Hash)]
pub enum Step {
    /// It took a subproblem.
    Taken,
    /// It offered a solution.
    Improved,
    /// It finished what it had taken.
    Finished,
    /// It gave back what it had taken.
    GaveBack,
    /// Nothing is open, and it waits for others.
    Waiting,
}

/// What workers pass after each step, outside the turn. It has no meaning and only delays.
pub trait Gate {
    /// This worker passes after this step.
    fn pass(&self, worker: u32, at: Step);
}

/// A gate that stands open.
#[derive(Clone, Copy, Debug)]
pub struct NoGate;

impl Gate for NoGate {
    fn pass(&self, _worker: u32, _at: Step) {}
}

/// What a decision leads to: a state of the next layer, and what is gained on the way.
#[derive(Clone, Copy, Debug, PartialEq, Eq)]
pub struct Transition {
    pub next: u32,
    pub gain: i64,
}

//! What the workers of a search share.

use disk::Disk;
use dp_model::DpModel;
use kept_board::Kept;
use std::alloc::Global;
use turn::Turn;

/// What the workers of a search share: the runtime and the allocator, the turn to their board, the model, and the gate. The functions
/// that take it ask that the board is of the model's instance.
#[derive(Drop)]
pub struct Crew<'w, M: DpModel, D: Disk + Send, G, R> {
    pub rt: &'w R,
    pub alloc: Global,
    pub turn: &'w Turn<Kept<M, D>>,
    pub model: &'w M,
    pub gate: &'w G,
}

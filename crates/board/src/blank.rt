ghost use Rattle.std.specs.Prelude.{◌≡◌, IfOk, vec_len};
ghost use Rattle.board_laws.specs.Steps.{empty_slots};

use crate::checked_out::CheckedOut;
use crate::starting::empty_slots;
use dp_model::OutOfMemory;
use std::alloc::Global;

/// What a board has besides its start: two rows in which decisions are walked, and a slot for each worker.
#[derive(Drop)]
pub struct Blank {
    /// A row that is written over.
    pub row: Vec<i64>,
    /// Another row that is written over.
    pub spare: Vec<i64>,
    /// A slot for each worker, empty at first.
    pub slots: Vec<Option<CheckedOut>>,
}

impl Blank {
    /// Rows of `words` cells and slots for `workers` workers. Fails only for want of memory.
    pub fn new(alloc: Global, words: usize, workers: u32) -> Result<Blank, OutOfMemory>
        ensures row { IfOk result (λ b. vec_len b.row ≡ words) }
        ensures spare { IfOk result (λ b. vec_len b.spare ≡ words) }
        ensures slots { IfOk result (λ b. b.slots.items ≡ empty_slots workers) }
    {
        let row = vec![in alloc; 0i64; words]?;
        let spare = vec![in alloc; 0i64; words]?;
        let slots = empty_slots(alloc, workers)?;
        Ok(Blank { row, spare, slots })
    }
}

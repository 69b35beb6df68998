//! Decisions that are followed from the root.

ghost use Rattle.std.specs.Prelude.{◌≡◌, length, IfOk, option_map, vec_len};
ghost use Rattle.dp_model.specs.Solution.{SolutionGives};
ghost use Rattle.dp_model.specs.Walked.{WalkGives};
ghost use Rattle.journal_replay.specs.Places.{is_far, AreCells, PrefixGives};

use dp_model::{DpModel, OutOfMemory, Sub, solution_value, walk};
use std::alloc::Global;

/// The greatest size of a bound: 2^62.
const GREATEST_BOUND: i64 = 0x4000_0000_0000_0000;

/// Two rows with the cells of a state, which are written over.
#[derive(Debug, Drop)]
pub struct Rows {
    pub row: Vec<i64>,
    pub spare: Vec<i64>,
}

impl Rows {
    /// Rows of zeros.
    pub fn new(alloc: Global, words: usize) -> Result<Rows, OutOfMemory>
        ensures { IfOk result (λ rows. (vec_len rows.row ≡ words) × (vec_len rows.spare ≡ words)) }
    {
        let row = vec![in alloc; 0i64; words]?;
        let spare = vec![in alloc; 0i64; words]?;
        Ok(Rows { row, spare })
    }
}

/// Follows decisions from the root. Answers the value, with the state that they reach in the row, or `None` exactly where they
/// are no prefix.
fn walk_into<M: DpModel>(
    model: &M,
    decisions: &[u32],
    row: &mut Vec<i64>,
    spare: &mut [i64],
) -> Option<i64>
    requires cells { vec_len row.old ≡ (M.meaning (M.numbers model.now)).words }
    requires spare_cells { length spare.old ≡ (M.meaning (M.numbers model.now)).words }
    ensures gives { WalkGives (M.meaning (M.numbers model.now)) decisions.now row.new.items result }
    ensures cells { vec_len row.new ≡ vec_len row.old }
{
    walk(model, decisions, row.as_mut_slice(), spare)
}

/// The value of a feasible solution, or `None` exactly where the decisions are none.
pub fn value_in<M: DpModel>(model: &M, decisions: &[u32], rows: &mut Rows) -> Option<i64>
    requires cells { AreCells (M.meaning (M.numbers model.now)) (vec_len rows.old.row) (vec_len rows.old.spare) }
    ensures gives { SolutionGives (M.meaning (M.numbers model.now)) decisions.now result }
    ensures cells { AreCells (M.meaning (M.numbers model.now)) (vec_len rows.new.row) (vec_len rows.new.spare) }
{
    solution_value(
        model,
        decisions,
        rows.row.as_mut_slice(),
        rows.spare.as_mut_slice(),
    )
}

/// Whether the size of a bound is at most 2^62.
fn is_far(bound: i64) -> bool
    ensures { result ≡ is_far bound }
{
    -GREATEST_BOUND <= bound && bound <= GREATEST_BOUND
}

/// The subproblem of decisions and a bound, or `None` exactly where they are no prefix shorter than a solution or the size of the
/// bound is greater than 2^62. `spare` is written over.
pub fn prefix_sub<M: DpModel>(
    alloc: Global,
    model: &M,
    decisions: &[u32],
    bound: i64,
    spare: &mut [i64],
) -> Result<Option<Sub>, OutOfMemory>
    requires cells { length spare.old ≡ (M.meaning (M.numbers model.now)).words }
    ensures { IfOk result (λ sub. PrefixGives (M.meaning (M.numbers model.now)) decisions.now bound (option_map (λ s. s.subproblem) sub)) }
{
    if decisions.len() >= model.vars() || !is_far(bound) {
        return Ok(None);
    }
    let mut sub = Sub::blank(alloc, model.vars(), model.words())?;
    let Some(value) = walk_into(model, decisions, &mut sub.row, spare) else {
        return Ok(None);
    };
    sub.decisions.extend_from_slice(decisions)?;
    sub.value = value;
    sub.bound = bound;
    Ok(Some(sub))
}

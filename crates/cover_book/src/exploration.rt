//! Explorations whose diagrams the caller compiles.

ghost use Rattle.std.specs.Prelude.{◌≡◌, ◌+◌, ◌^◌, ◌<◌, ◌≤◌, None, IfOk, IfSome, OnOk, length, slice_get, option_map};
ghost use Rattle.dp_model.specs.Best.{best};
ghost use Rattle.dp_model.specs.Subproblem.{IsOwn};
ghost use Rattle.bound_cover.specs.Clamping.{AreWritable, IsReachable};
ghost use Rattle.bound_cover.specs.Exploring.{HoldsAll};
ghost use Rattle.bound_cover.specs.Verdicts.{checked_rows};
ghost use Rattle.cover_book.specs.Steps.{IsDiagramAt};
ghost use Rattle.cover_book.specs.UnderWay.{IsUnderWay, waits_next};

use crate::diagrams::ShownDiagram;
use crate::drafting::DraftLayer;
use crate::exploring::{put_in, start_rows, start_waiting};
use crate::waiting::{WaitingRow, prefix_at};
use crate::writing::write_cover;
use bound_cover::Cover;
use dp_model::{DpModel, OutOfMemory, Sub};
use std::alloc::Global;

/// A cover under way, in which some rows wait for diagrams of their own: each such row stands for a prefix, and gets its arcs,
/// and the rows that these lead to, from a relaxed diagram of this prefix with the claim as threshold.
#[derive(Debug, Drop)]
pub struct Exploration {
    pub(crate) claim: Option<i64>,
    pub(crate) rows: Vec<DraftLayer>,
    pub(crate) waiting: Vec<WaitingRow>,
    pub(crate) next: usize,
}

impl Exploration {
    /// An exploration from the root, whose row waits where there is something to decide. The claim is what no feasible solution
    /// is to exceed. It fails only for want of memory.
    pub fn start<M: DpModel>(
        alloc: Global,
        model: &M,
        claim: Option<i64>,
    ) -> Result<Exploration, OutOfMemory>
        ensures under_way { IfOk result (λ e. IsUnderWay (M.meaning (M.numbers model.now)) e) }
        ensures claim { IfOk result (λ e. e.claim ≡ claim) }
    {
        let rows = start_rows(alloc, model, claim)?;
        let waiting = start_waiting(alloc, model)?;
        Ok(Exploration {
            claim,
            rows,
            waiting,
            next: 0,
        })
    }

    /// The prefix of the row that waits next, with its state and value; none where no row waits.
    pub fn next<M: DpModel>(&self, model: &M) -> Option<&Sub>
        requires { IsUnderWay (M.meaning (M.numbers model.now)) self.now }
        ensures next { option_map (λ s. s.now.subproblem) result ≡ waits_next self.now }
        ensures own { IfSome result (λ s. IsOwn (M.meaning (M.numbers model.now)) s.now.subproblem) }
    {
        if self.next < self.waiting.len() {
            Some(prefix_at(self.waiting.as_slice(), self.next))
        } else {
            None
        }
    }

    /// Puts in a diagram of the prefix that waits next, with the claim as threshold. It fails only for want of memory or of a cover's
    /// room, or where a layer of the cover needs 2^32 rows; then the exploration is of no more use.
    pub fn put<M: DpModel, D: ShownDiagram>(
        &mut self,
        alloc: Global,
        model: &M,
        diagram: &D,
    ) -> Result<(), OutOfMemory>
        requires under_way { IsUnderWay (M.meaning (M.numbers model.now)) self.old }
        requires diagram { IsDiagramAt (M.meaning (M.numbers model.now)) self.old.claim (slice_get self.old.waiting.items self.old.next) (D.layers diagram.now) }
        ensures under_way { OnOk result (IsUnderWay (M.meaning (M.numbers model.now)) self.new) }
        ensures claim { self.new.claim ≡ self.old.claim }
        ensures counted { OnOk result (self.new.next ≡ self.old.next + 1) }
        ensures few { OnOk result (self.new.next < 2 ^ 64) }
    {
        put_in(
            alloc,
            model,
            self.claim,
            diagram,
            self.next,
            &mut self.rows,
            &mut self.waiting,
        )?;
        self.next += 1;
        Ok(())
    }

    /// The cover, once no row waits. Its bounds are brought into the range that a cover's text can hold.
    ///
    /// Where no feasible solution has more than the claim, and where the claim is none or at least the least value that a feasible
    /// solution can have, the checker's `check_rows` answers `None`; so it does where the claim is the best value. It fails only for
    /// want of memory or of a cover's room, or where a layer needs 2^32 rows.
    pub fn finish<M: DpModel>(&self, alloc: Global, model: &M) -> Result<Cover, OutOfMemory>
        requires under_way { IsUnderWay (M.meaning (M.numbers model.now)) self.now }
        requires done { waits_next self.now ≡ None }
        ensures passes { IfOk result (λ cover. HoldsAll (M.meaning (M.numbers model.now)) self.now.claim → IsReachable self.now.claim → checked_rows (M.meaning (M.numbers model.now)) self.now.claim cover ≡ None) }
        ensures best { IfOk result (λ cover. self.now.claim ≡ best (M.meaning (M.numbers model.now)) → checked_rows (M.meaning (M.numbers model.now)) self.now.claim cover ≡ None) }
        ensures writable { IfOk result (λ cover. AreWritable cover) }
    {
        let cover = write_cover(alloc, model, self.rows.as_slice())?;
        Ok(cover)
    }
}

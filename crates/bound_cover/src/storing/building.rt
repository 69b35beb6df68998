//! Covers that grow row by row.

ghost use Rattle.std.specs.Prelude.{◌≡◌, ◌<◌, ◌-◌, ◌^◌, [], length, OnOk, OnErr};
ghost use Rattle.bound_cover.specs.Stored.{last_layer};
ghost use Rattle.bound_cover.specs.Building.{with_word, with_arc, with_layer, with_open_row};

use super::{Cover, Head, head_of};
use crate::cover::CoverArc;
use dp_model::OutOfMemory;
use std::alloc::Global;
use std::marker::Model;

/// A cover whose rows come one after another, each with its words and then its arcs, straight into the cover's blocks.
#[derive(Debug, Drop)]
pub struct CoverBuilder {
    starts: Vec<usize>,
    heads: Vec<Head>,
    words: Vec<i64>,
    arcs: Vec<CoverArc>,
    // Where the words and the arcs of the open row begin.
    words_from: usize,
    arcs_from: usize,
}

impl Model for CoverBuilder {
    ghost use Rattle.bound_cover.specs.Building.{BuilderView, built, IsBuilt};
    ghost use Rattle.bound_cover.specs.Stored.{spans, BeginsAt};

    ghost Value = { BuilderView };

    ghost view = { λ b. built b.starts.items (spans b.heads.items) b.words.items b.arcs.items b.words_from b.arcs_from };

    ghost invariant = { λ b. IsBuilt b.starts.items (spans b.heads.items) b.words.items b.arcs.items b.words_from b.arcs_from
        × BeginsAt b.words_from b.arcs_from b.heads.items };
}

impl CoverBuilder {
    /// A cover without layers, and an open row without words and arcs. It takes no memory.
    pub fn new(alloc: Global) -> CoverBuilder
        ensures { result ≡ record { cover = []; words = []; arcs = [] } }
    {
        CoverBuilder {
            starts: Vec::new(alloc),
            heads: Vec::new(alloc),
            words: Vec::new(alloc),
            arcs: Vec::new(alloc),
            words_from: 0,
            arcs_from: 0,
        }
    }

    /// The same in the memory of a cover that is not needed any more.
    pub fn reusing(spare: Cover) -> CoverBuilder
        ensures { result ≡ record { cover = []; words = []; arcs = [] } }
    {
        let mut starts = spare.starts;
        let mut heads = spare.heads;
        let mut words = spare.words;
        let mut arcs = spare.arcs;
        starts.clear();
        heads.clear();
        words.clear();
        arcs.clear();
        CoverBuilder {
            starts,
            heads,
            words,
            arcs,
            words_from: 0,
            arcs_from: 0,
        }
    }

    /// How many layers there are.
    pub fn layers(&self) -> usize
        ensures { result ≡ length self.now.cover }
    {
        self.starts.len()
    }

    /// Adds an empty layer. A refusal changes nothing.
    pub fn add_layer(&mut self) -> Result<(), OutOfMemory>
        ensures ok { OnOk result (self.new ≡ with_layer self.old) }
        ensures err { OnErr result (self.new ≡ self.old) }
    {
        self.starts.reserve(1)?;
        self.starts.push_reserved(self.heads.len());
        Ok(())
    }

    /// Adds a word to the open row. A refusal changes nothing.
    #[inline]
    pub fn push_word(&mut self, word: i64) -> Result<(), OutOfMemory>
        ensures ok { OnOk result (self.new ≡ with_word self.old word) }
        ensures err { OnErr result (self.new ≡ self.old) }
    {
        self.words.reserve(1)?;
        self.words.push_reserved(word);
        Ok(())
    }

    /// Adds an arc to the open row. A refusal changes nothing.
    #[inline]
    pub fn push_arc(&mut self, arc: CoverArc) -> Result<(), OutOfMemory>
        ensures ok { OnOk result (self.new ≡ with_arc self.old arc) }
        ensures err { OnErr result (self.new ≡ self.old) }
    {
        self.arcs.reserve(1)?;
        self.arcs.push_reserved(arc);
        Ok(())
    }

    /// Adds the open row to the last layer, with a bound, and with an arc part or none, and opens the next row.
    ///
    /// There is a layer, and the last one has fewer than `2^32 - 1` rows. It fails only for want of memory or of a cover's room, and
    /// then changes nothing. Without an arc part the arcs that were added are left out.
    #[inline(always)]
    pub fn end_row(&mut self, bound: Option<i64>, has_arcs: bool) -> Result<(), OutOfMemory>
        requires layer { 0 < length self.old.cover }
        requires few { length (last_layer self.old.cover) < 2 ^ 32 - 1 }
        ensures ok { OnOk result (self.new ≡ with_open_row self.old bound has_arcs) }
        ensures err { OnErr result (self.new ≡ self.old) }
    {
        let words_to = self.words.len();
        let arcs_to = self.arcs.len();
        let head = head_of(bound, has_arcs, words_to, arcs_to)?;
        self.heads.reserve(1)?;
        self.heads.push_reserved(head);
        self.words_from = words_to;
        self.arcs_from = arcs_to;
        Ok(())
    }

    /// The cover. What was added to the open row is left out.
    pub fn finish(self) -> Cover
        ensures { result ≡ self.cover }
    {
        let mut words = self.words;
        words.truncate(self.words_from);
        let mut arcs = self.arcs;
        arcs.truncate(self.arcs_from);
        Cover {
            starts: self.starts,
            heads: self.heads,
            words,
            arcs,
        }
    }
}

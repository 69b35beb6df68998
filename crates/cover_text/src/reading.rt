//! The text of a cover, read.

ghost use Rattle.std.specs.Prelude.{◌≡◌, ◌<◌, ◌≤◌, ◌-◌, ◌^◌, ◌++◌, length, vec_len, IfOk, OnErr, Err};
ghost use Rattle.dp_model.specs.Distances.{IsDistance};
ghost use Rattle.problem_names.specs.Parts.{MayBePart};
ghost use Rattle.cover_text.specs.Grammar.{Reads};
ghost use Rattle.cover_text.specs.Instances.{end_place, moved};
ghost use Rattle.cover_text.specs.declared.cover_error.CoverError.TheVariants.{OutOfMemory};
ghost use Rattle.cover_text.specs.Texts.{cover_after, held_with, opened, opened_in, text_in, text_of, verdict_after};

use crate::cover_error::CoverError;
use crate::cover_text::{CoverText, OpenCover};
use crate::head::read_head;
use crate::instance::{end_place, moved, part_text};
use crate::layers::read_sections;
use crate::tested::test_sections;
use bound_cover::{Cover, Reported, Verdict};
use dp_model::DpModel;
use std::alloc::Global;

impl<'t> OpenCover<'t> {
    /// A fault of the sections, with its place in the whole text.
    fn placed(&self, fault: CoverError) -> CoverError
        requires { length self.now.before.now < 2 ^ 32 - 1 }
        ensures { result ≡ moved (end_place self.now.before.now) fault }
    {
        moved(end_place(self.before), fault)
    }

    /// Reads these sections, with the places of their faults in the text that they end.
    #[tactic(auto, unfolding(crate::specs::Texts::cover_after))]
    pub(crate) fn read_part(&self, alloc: Global, sections: &[u8]) -> Result<Cover, CoverError>
        requires before { length self.now.before.now < 2 ^ 32 - 1 }
        requires sections { length sections.now < 2 ^ 32 - 1 }
        ensures { Reads (λ c. c) result (cover_after self.now.before.now sections.now) }
    {
        match read_sections(alloc, sections) {
            Ok(cover) => Ok(cover),
            Err(fault) => Err(self.placed(fault)),
        }
    }

    /// Reads the sections, with the places of their faults in the whole text.
    pub fn read(&self, alloc: Global) -> Result<Cover, CoverError>
        requires before { length self.now.before.now < 2 ^ 32 - 1 }
        requires following { length self.now.following.now < 2 ^ 32 - 1 }
        ensures { Reads (λ c. c) result (cover_after self.now.before.now self.now.following.now) }
    {
        self.read_part(alloc, self.following)
    }

    /// The text with these rows.
    pub(crate) fn held(self, alloc: Global, cover: Cover) -> Result<CoverText, CoverError>
        ensures text { IfOk result (λ t. text_in t ≡ held_with (opened_in self.entry) cover) }
        ensures within { IfOk result (λ t. t.within ≡ self.entry.within) }
        ensures part { IfOk result (λ t. t.part ≡ self.entry.part) }
        ensures instance { IfOk result (λ t. vec_len t.instance ≡ length self.entry.instance.now) }
        ensures cause { OnErr result (result ≡ Err OutOfMemory) }
    {
        let instance = self.instance.to_vec(alloc)?;
        Ok(CoverText {
            model: self.model,
            part: self.part,
            best: self.best,
            within: self.within,
            assignment: self.assignment,
            instance,
            cover,
        })
    }

    /// The verdict of `Checker::check` on the sections, which are tested as they are read, or the first fault as `read` gives it. Two
    /// layers at a time are in memory.
    #[tactic(auto, using(crate::proofs::InTurn::after_tested))]
    pub fn check<M: DpModel>(&self, alloc: Global, model: &M) -> Result<Verdict, CoverError>
        requires before { length self.now.before.now < 2 ^ 32 - 1 }
        requires following { length self.now.following.now < 2 ^ 32 - 1 }
        requires distance { IsDistance self.now.within }
        ensures { Reads (λ v. v) result (verdict_after (M.meaning (M.numbers model.now)) (opened_in self.now)) }
    {
        let reported = Reported {
            best: self.best,
            within: self.within,
            assignment: self.assignment.as_slice(),
        };
        match test_sections(alloc, model, reported, self.following) {
            Ok(verdict) => Ok(verdict),
            Err(fault) => Err(self.placed(fault)),
        }
    }
}

/// Reads the text of a cover up to its sections.
///
/// The first fault is answered, as by `read_cover`. No part has more bytes than the text.
#[tactic(auto, unfolding(crate::specs::Texts::opened))]
pub fn open_cover(alloc: Global, bytes: &[u8]) -> Result<OpenCover<'_>, CoverError>
    requires { length bytes.now < 2 ^ 32 - 1 }
    ensures read { Reads opened_in result (opened bytes.now) }
    ensures distance { IfOk result (λ o. IsDistance o.within) }
    ensures part { IfOk result (λ o. MayBePart o.part) }
    ensures inside { IfOk result (λ o. length o.instance.now ≤ length bytes.now) }
    ensures before { IfOk result (λ o. length o.before.now ≤ length bytes.now) }
    ensures following { IfOk result (λ o. length o.following.now ≤ length bytes.now) }
{
    let head = read_head(alloc, bytes)?;
    let parts = part_text(bytes, head.size.line, head.size.bytes)?;
    let claim = head.claim;
    Ok(OpenCover {
        model: head.model,
        part: head.part,
        best: claim.best,
        within: claim.within,
        assignment: claim.assignment,
        instance: parts.instance,
        before: &bytes[..bytes.len() - parts.following.len()],
        following: parts.following,
    })
}

/// Reads the text of a cover.
///
/// The first fault is answered, with its place: one of `Tokens::next_number`, `Tokens::next_word` and `Tokens::finish`, or `Word`
/// at a word that may not stand there. Where a row's line ends too early, that is the next token. `EndOfText` where the instance
/// has fewer bytes than are announced. `OutOfMemory` where there was no memory for the cover. The instance has no more bytes than
/// the text.
#[tactic(auto, unfolding(crate::specs::Texts::text_of))]
pub fn read_cover(alloc: Global, bytes: &[u8]) -> Result<CoverText, CoverError>
    requires { length bytes.now < 2 ^ 32 - 1 }
    ensures read { Reads text_in result (text_of bytes.now) }
    ensures distance { IfOk result (λ t. IsDistance t.within) }
    ensures part { IfOk result (λ t. MayBePart t.part) }
    ensures inside { IfOk result (λ t. vec_len t.instance ≤ length bytes.now) }
{
    let open = open_cover(alloc, bytes)?;
    let cover = open.read(alloc)?;
    open.held(alloc, cover)
}

//! The check of each part.

ghost use Rattle.std.specs.Prelude.{◌≡◌, ◌<◌, length, IfOk, pos};
ghost use Rattle.std.specs.Arc.{arc_value};
ghost use Rattle.bound_cover.specs.Verdicts.{verdict};
ghost use Rattle.parts.specs.Part.{part_program};
ghost use Rattle.cover_text.specs.Texts.{text_in};
ghost use Rattle.cover_join.specs.Joining.{answer_of, answers_in, checks_fault, part_fault, refusal};

use crate::join_error::JoinError;
use bound_cover::{Checker, Reported, Verdict};
use cover_text::CoverText;
use dp_model::{DpModel, OutOfMemory};
use parts::Part;
use std::alloc::Global;
use std::sync::Arc;

/// The verdict on a text of the part with this number, without a distance. It fails only for want of memory.
fn check_part<M: DpModel>(
    alloc: Global,
    model: &Arc<M>,
    index: u32,
    of: u32,
    text: &CoverText,
) -> Result<Verdict, OutOfMemory>
    requires { index < of }
    ensures { IfOk result (λ v. v ≡ verdict (part_program (M.meaning (M.numbers (arc_value model.now))) index of) text.now.best (pos 0) text.now.assignment.items text.now.cover) }
{
    let part = Part::new(alloc, Arc::try_clone(model)?, index, of)?;
    let mut checker = Checker::prepare(alloc, &part)?;
    let reported = Reported {
        best: text.best,
        within: 0,
        assignment: text.assignment.as_slice(),
    };
    Ok(checker.check(&part, reported, &text.cover))
}

/// The refusal of the part with this number, where the verdict is one.
fn refusal(index: u32, verdict: Verdict) -> Option<JoinError>
    ensures { result ≡ refusal index verdict }
{
    match verdict {
        Verdict::Accepted => None,
        Verdict::Refused(why) => Some(JoinError::Refused { index, why }),
    }
}

/// The refusal of a text of the part with this number. It fails only for want of memory.
fn part_fault<M: DpModel>(
    alloc: Global,
    model: &Arc<M>,
    index: u32,
    of: u32,
    text: &CoverText,
) -> Result<Option<JoinError>, OutOfMemory>
    requires { index < of }
    ensures { IfOk result (λ fault. fault ≡ part_fault (M.meaning (M.numbers (arc_value model.now))) of index (answer_of (text_in text.now))) }
{
    let verdict = check_part(alloc, model, index, of, text)?;
    Ok(refusal(index, verdict))
}

/// The first refusal of the texts, of which there is one for each part. It fails only for want of memory.
pub(crate) fn checks_fault<M: DpModel>(
    alloc: Global,
    model: &Arc<M>,
    of: u32,
    texts: &[CoverText],
) -> Result<Option<JoinError>, OutOfMemory>
    requires { length texts.now ≡ of }
    ensures { IfOk result (λ fault. fault ≡ checks_fault (M.meaning (M.numbers (arc_value model.now))) of 0 (answers_in texts.now)) }
{
    let mut rest = texts;
    let mut index = 0;
    while let [text, after @ ..] = rest {
        if let Some(fault) = part_fault(alloc, model, index, of, text)? {
            return Ok(Some(fault));
        }
        index += 1;
        rest = after;
    }
    Ok(None)
}

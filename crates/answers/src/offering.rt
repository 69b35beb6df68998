//! Reports of settled parts, whose solutions are offered to a search before it goes on.

ghost use Rattle.std.specs.Prelude.{◌≡◌, ◌⊎◌, ◌<◌, ◌-◌, ◌^◌, length, map, IfErr, IfOk, IsOkAnd};
ghost use Rattle.part_reports.specs.Reports.{report_view};
ghost use Rattle.part_text.specs.Reports.{reports_of};
ghost use Rattle.answers.specs.Ended.{readings};
ghost use Rattle.answers.specs.Offers.{parts_told};
ghost use Rattle.answers.specs.OffersRead.{AreOffers, IsNoOffer, RefusesOffers};

use crate::inputs::{COVER_LIMIT, unread};
use crate::reporting::parts_of;
use part_reports::PartReport;
use part_text::{ReadReportsError, read_reports};
use solver_report::Answer;
use std::alloc::Global;
use streams::{Source, read_all};

/// The reports of settled parts in the input, one or more after another.
///
/// # Errors
///
/// The answer to an input that was not read whole or has more than 2^28 bytes, or to the first fault of its text, or that memory ran out.
pub fn read_offers<S: Source>(alloc: Global, input: &mut S) -> Result<Vec<PartReport>, Answer>
    ensures offers { IfOk result (λ reports. AreOffers (readings S.left S.faults input.old input.new) (map report_view reports.items)) }
    ensures refused { IfErr result (IsNoOffer (readings S.left S.faults input.old input.new)) }
{
    match read_all(alloc, input, COVER_LIMIT) {
        Ok(text) => offers_in(alloc, text.as_slice()),
        Err(error) => Err(unread(error)),
    }
}

/// The reports in a text. It fails with the answer to its first fault, or to want of memory.
fn offers_in(alloc: Global, bytes: &[u8]) -> Result<Vec<PartReport>, Answer>
    requires { length bytes.now < 2 ^ 32 - 1 }
    ensures offers { IfOk result (λ reports. IsOkAnd (reports_of bytes.now) (λ rs. map report_view reports.items ≡ parts_told rs)) }
    ensures refused { IfErr result (λ answer. (answer ≡ Answer.OutOfMemory) ⊎ RefusesOffers bytes.now answer) }
{
    match read_reports(alloc, bytes) {
        Ok(reports) => match parts_of(alloc, reports) {
            Ok(parts) => Ok(parts),
            Err(_) => Err(Answer::OutOfMemory),
        },
        Err(ReadReportsError::Text(fault)) => Err(Answer::ReportRefused(fault)),
        Err(ReadReportsError::OutOfMemory) => Err(Answer::OutOfMemory),
    }
}

//! Whether there is a report of each part, with a value that its decisions have.

ghost use Rattle.std.specs.Prelude.{◌≡◌, true, length, map, option_map, IfErr, IfOk, IsTrue, OnOk};
ghost use Rattle.std.specs.Str.{bytes_eq};
ghost use Rattle.journal_bytes.specs.Views.{incumbent_view};
ghost use Rattle.part_reports.specs.Reports.{report_view, is_of_part, AreReports, TestGives, FaultGives, FaultsGive, Refuses, UntestedGives};

use crate::fault::ReportFault;
use crate::report::PartReport;
use dp_model::{DpModel, OutOfMemory, solution_value};
use journal_bytes::Incumbent;
use std::alloc::Global;

/// Whether the report is of the part with this number, of this number of parts.
fn is_of_part(of: usize, index: usize, report: &PartReport) -> bool
    ensures { result ≡ is_of_part of index (report_view report.now) }
{
    report.index as usize == index && report.of as usize == of
}

/// Whether two digests have the same bytes.
fn are_same(one: &[u8], other: &[u8]) -> bool
    ensures { result ≡ bytes_eq one.now other.now }
{
    one == other
}

/// Whether the decisions of a solution have its value. The rows have the cells of a state, and are written over.
fn is_tested<M: DpModel>(
    model: &M,
    best: &Option<Incumbent>,
    row: &mut [i64],
    spare: &mut [i64],
) -> bool
    requires cells { length row.old ≡ (M.meaning (M.numbers model.now)).words }
    requires spare_cells { length spare.old ≡ (M.meaning (M.numbers model.now)).words }
    ensures tested { TestGives (M.meaning (M.numbers model.now)) (option_map incumbent_view best.now) result }
    ensures cells { length row.new ≡ length row.old }
    ensures spare_cells { length spare.new ≡ length spare.old }
{
    let Some(found) = best else {
        return true;
    };
    match solution_value(model, found.decisions.as_slice(), row, spare) {
        Some(value) => value == found.value,
        None => false,
    }
}

/// Why the report is refused at this place, of this number of reports.
fn fault_at<M: DpModel>(
    model: &M,
    digest: &[u8; 32],
    of: usize,
    place: usize,
    report: &PartReport,
    row: &mut [i64],
    spare: &mut [i64],
) -> Option<ReportFault>
    requires cells { length row.old ≡ (M.meaning (M.numbers model.now)).words }
    requires spare_cells { length spare.old ≡ (M.meaning (M.numbers model.now)).words }
    ensures fault { FaultGives (M.meaning (M.numbers model.now)) digest.now of place (report_view report.now) result }
    ensures cells { length row.new ≡ length row.old }
    ensures spare_cells { length spare.new ≡ length spare.old }
{
    if !is_of_part(of, place, report) {
        return Some(ReportFault::Part { place });
    }
    if !are_same(report.digest.as_slice(), digest.as_slice()) {
        return Some(ReportFault::Journal { place });
    }
    if !is_tested(model, &report.best, row, spare) {
        return Some(ReportFault::Value { place });
    }
    None
}

/// Why the reports are refused: the first fault.
fn first_fault<M: DpModel>(
    model: &M,
    digest: &[u8; 32],
    reports: &[PartReport],
    row: &mut [i64],
    spare: &mut [i64],
) -> Option<ReportFault>
    requires cells { length row.old ≡ (M.meaning (M.numbers model.now)).words }
    requires spare_cells { length spare.old ≡ (M.meaning (M.numbers model.now)).words }
    ensures { FaultsGive (M.meaning (M.numbers model.now)) digest.now (length reports.now) 0 (map report_view reports.now) result }
{
    let of = reports.len();
    let mut rest = reports;
    let mut place = 0;
    while let [report, after @ ..] = rest {
        if let Some(fault) = fault_at(model, digest, of, place, report, row, spare) {
            return Some(fault);
        }
        place += 1;
        rest = after;
    }
    None
}

/// Refuses the reports by their first fault.
pub(crate) fn test_reports<M: DpModel>(
    alloc: Global,
    model: &M,
    digest: &[u8; 32],
    reports: &[PartReport],
) -> Result<(), ReportFault>
    ensures tested { OnOk result (AreReports (M.meaning (M.numbers model.now)) digest.now (length reports.now) 0 (map report_view reports.now)) }
    ensures refused { IfErr result (Refuses (M.meaning (M.numbers model.now)) digest.now (length reports.now) (map report_view reports.now)) }
{
    let mut row = vec![in alloc; 0i64; model.words()]?;
    let mut spare = vec![in alloc; 0i64; model.words()]?;
    match first_fault(model, digest, reports, &mut row, &mut spare) {
        Some(fault) => Err(fault),
        None => Ok(()),
    }
}

/// The place of the first report whose decisions are no feasible solution with its value. `None` if there is no such report. The parts and
/// the digests of the reports are not compared.
///
/// # Errors
///
/// `OutOfMemory` alone.
pub fn first_untested<M: DpModel>(
    alloc: Global,
    model: &M,
    reports: &[PartReport],
) -> Result<Option<usize>, OutOfMemory>
    ensures { IfOk result (UntestedGives (M.meaning (M.numbers model.now)) 0 (map report_view reports.now)) }
{
    let mut row = vec![in alloc; 0i64; model.words()]?;
    let mut spare = vec![in alloc; 0i64; model.words()]?;
    Ok(untested_at(model, reports, &mut row, &mut spare))
}

/// The same, with rows that have the cells of a state and are written over.
fn untested_at<M: DpModel>(
    model: &M,
    reports: &[PartReport],
    row: &mut [i64],
    spare: &mut [i64],
) -> Option<usize>
    requires cells { length row.old ≡ (M.meaning (M.numbers model.now)).words }
    requires spare_cells { length spare.old ≡ (M.meaning (M.numbers model.now)).words }
    ensures { UntestedGives (M.meaning (M.numbers model.now)) 0 (map report_view reports.now) result }
{
    let mut rest = reports;
    let mut place = 0;
    while let [report, after @ ..] = rest {
        if !is_tested(model, &report.best, row, spare) {
            return Some(place);
        }
        place += 1;
        rest = after;
    }
    None
}

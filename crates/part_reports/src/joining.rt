//! Reports of all parts, joined.

ghost use Rattle.std.specs.Prelude.{◌≡◌, length, map, IfErr, IfOk, OnOk};
ghost use Rattle.frontier_parts.specs.Settled.{joined, joined_place};
ghost use Rattle.part_reports.specs.Reports.{report_view, value_told, values_told, AreReports, Refuses};

use crate::fault::ReportFault;
use crate::report::PartReport;
use crate::testing::test_reports;
use dp_model::{DpModel, OutOfMemory};
use frontier_parts::{JoinedValue, join_values};
use std::alloc::Global;

/// The value that a report tells.
fn value_told(report: &PartReport) -> Option<i64>
    ensures { result ≡ value_told (report_view report.now) }
{
    match &report.best {
        Some(best) => Some(best.value),
        None => None,
    }
}

/// The values that the reports tell, in order.
fn values_told(alloc: Global, reports: &[PartReport]) -> Result<Vec<Option<i64>>, OutOfMemory>
    ensures { IfOk result (λ values. values.items ≡ values_told (map report_view reports.now)) }
{
    let mut values = Vec::with_capacity(alloc, reports.len())?;
    for report in reports {
        values.push(value_told(report))?;
    }
    Ok(values)
}

/// The greatest of the incumbent of the search that was split and of the values of its parts, with the first part that has it. The reports
/// stand in the order of their parts, and `digest` is that of the last record of the journal that was split.
///
/// Where each report tells what the search of its part has settled, it is the best value (`reports_join`).
///
/// # Errors
///
/// `Part`, `Journal` and `Value` exactly for the first report of which one is true, and for the first of these that is. Otherwise
/// `OutOfMemory` alone.
pub fn join_reports<M: DpModel>(
    alloc: Global,
    model: &M,
    digest: &[u8; 32],
    incumbent: Option<i64>,
    reports: &[PartReport],
) -> Result<JoinedValue, ReportFault>
    ensures value { IfOk result (λ found. found.value ≡ joined incumbent (values_told (map report_view reports.now))) }
    ensures place { IfOk result (λ found. found.place ≡ joined_place incumbent (values_told (map report_view reports.now))) }

    // There is one report for each part of that journal, and each value is that of a feasible solution.
    ensures tested { OnOk result (AreReports (M.meaning (M.numbers model.now)) digest.now (length reports.now) 0 (map report_view reports.now)) }
    ensures refused { IfErr result (Refuses (M.meaning (M.numbers model.now)) digest.now (length reports.now) (map report_view reports.now)) }
{
    test_reports(alloc, model, digest, reports)?;
    let values = values_told(alloc, reports)?;
    Ok(join_values(incumbent, values.as_slice()))
}

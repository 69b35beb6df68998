//! The best solution of reports of all parts.

ghost use Rattle.std.specs.Prelude.{◌≡◌, length, map, option_map, IfErr, IfOk, OnOk};
ghost use Rattle.frontier_parts.specs.Settled.{joined};
ghost use Rattle.journal_bytes.specs.Views.{incumbent_view};
ghost use Rattle.part_reports.specs.Best.{best_of_all, better_one, value_in};
ghost use Rattle.part_reports.specs.Reports.{report_view, values_told, AreReports, IsTested, Refuses};

use crate::fault::ReportFault;
use crate::report::PartReport;
use crate::testing::test_reports;
use dp_model::DpModel;
use journal_bytes::Incumbent;
use std::alloc::Global;

/// The solution with the greater value. The first one, where both have the same; one that is there, where the other is none.
fn better_one(one: Option<Incumbent>, other: Option<Incumbent>) -> Option<Incumbent>
    ensures { option_map incumbent_view result ≡ better_one (option_map incumbent_view one) (option_map incumbent_view other) }
{
    let Some(one) = one else {
        return other;
    };
    let Some(other) = other else {
        return Some(one);
    };
    if one.value < other.value {
        Some(other)
    } else {
        Some(one)
    }
}

/// The best of an incumbent and of the solutions of reports, the first one of several.
fn best_of_all(incumbent: Option<Incumbent>, reports: Vec<PartReport>) -> Option<Incumbent>
    ensures { option_map incumbent_view result ≡ best_of_all (option_map incumbent_view incumbent) (map report_view reports.items) }
{
    let mut best = incumbent;
    for report in reports {
        best = better_one(best, report.best);
    }
    best
}

/// The best of the incumbent of the search that was split and of the solutions of its parts, as `join_reports` joins their values.
///
/// # Errors
///
/// As those of `join_reports`.
pub fn best_of_reports<M: DpModel>(
    alloc: Global,
    model: &M,
    digest: &[u8; 32],
    incumbent: Option<Incumbent>,
    reports: Vec<PartReport>,
) -> Result<Option<Incumbent>, ReportFault>
    // It has the joined value, and is a feasible solution with its value where the incumbent is one.
    ensures value { IfOk result (λ best. value_in (option_map incumbent_view best) ≡ joined (value_in (option_map incumbent_view incumbent)) (values_told (map report_view reports.items))) }
    ensures feasible { IfOk result (λ best. IsTested (M.meaning (M.numbers model.now)) (option_map incumbent_view incumbent) → IsTested (M.meaning (M.numbers model.now)) (option_map incumbent_view best)) }

    // There is one report for each part of that journal, and each value is that of a feasible solution.
    ensures tested { OnOk result (AreReports (M.meaning (M.numbers model.now)) digest.now (length reports.items) 0 (map report_view reports.items)) }
    ensures refused { IfErr result (Refuses (M.meaning (M.numbers model.now)) digest.now (length reports.items) (map report_view reports.items)) }
{
    test_reports(alloc, model, digest, reports.as_slice())?;
    Ok(best_of_all(incumbent, reports))
}

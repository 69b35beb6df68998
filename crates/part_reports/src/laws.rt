//! What joined reports tell of the whole, as a function whose contract states it.

ghost use Rattle.std.specs.Prelude.{ℕ, ◌<◌, List, length};
ghost use Rattle.dp_model.specs.Dp.{Dp};
ghost use Rattle.board_laws.specs.Board.{BoardState, incumbent_value};
ghost use Rattle.board_laws.specs.GoodBoard.{IsBoard, IsGood, IsGoodFrom};
ghost use Rattle.frontier_parts.specs.Searches.{AreSettledBy};
ghost use Rattle.frontier_parts.specs.Settled.{joined};
ghost use Rattle.part_reports.specs.Joining.{IsHeldWithin, ReportsJoin};
ghost use Rattle.part_reports.specs.Reports.{ReportView, AreReports, values_told};

/// Where there is a report of each part of a good board, with tested values, and each tells what the search of its part has settled, the
/// greatest of the incumbent and of the values is the best one; within a distance no solution is further above it.
pub fn reports_join()
    ensures { (dp : Dp) (b : BoardState) (digest : List ℕ) (rs : List ReportView) → IsBoard dp b → IsGood dp b → 0 < length rs → AreReports dp digest (length rs) 0 rs → ReportsJoin dp b rs }
{}

/// The same for a part that was dealt out again: the greatest of the incumbent and of the values settles the prefixes with which it began.
pub fn reports_join_from()
    ensures { (dp : Dp) (starts : List (List ℕ)) (b : BoardState) (digest : List ℕ) (rs : List ReportView) → IsBoard dp b → IsGoodFrom dp starts b → 0 < length rs
        → AreReports dp digest (length rs) 0 rs → ((i : ℕ) → i < length rs → IsHeldWithin dp b rs i) → AreSettledBy dp starts b.settings.within (joined (incumbent_value b) (values_told rs)) }
{}

//! What the parts of a snapshot are to the whole, as functions whose contracts state it.

ghost use Rattle.std.specs.Prelude.{ℕ, ◌<◌, ℤ, List, Option, IsPermutation};
ghost use Rattle.dp_model.specs.Dp.{Dp};
ghost use Rattle.dp_model.specs.Laws.{IsLawful};
ghost use Rattle.board_laws.specs.Board.{BoardState};
ghost use Rattle.board_laws.specs.GoodBoard.{IsBoard, IsGood, IsGoodFrom};
ghost use Rattle.frontier_parts.specs.Searches.{AreSettledBy};
ghost use Rattle.journal_bytes.specs.Bodies.{IncumbentView, ListedView, Snapshot};
ghost use Rattle.journal_replay.specs.Following.{snapshot_record};
ghost use Rattle.journal_replay.specs.Parts.{IsPartRecorded};
ghost use Rattle.part_records.specs.Parts.{IsPartSettledWithin, PartsJoin, PartsSettle, dealt_record, joined_value, listed_by_parts};

/// The parts of a snapshot list each of its subproblems once, and nothing else.
pub fn parts_are_all()
    ensures { (best : Option IncumbentView) (next : ℕ) (os : List ListedView) (of : ℕ) → 0 < of → IsPermutation (listed_by_parts of (Snapshot best next os)) os }
{}

/// A search may begin with the record of a part of a board, and where the board is good, the record is sound from the prefixes that it lists.
pub fn parts_are_sound()
    ensures { (dp : Dp) → IsLawful dp → (b : BoardState) (of index : ℕ) → IsBoard dp b → IsPartRecorded dp b (dealt_record of index (snapshot_record b)) }
{}

/// A search that began with the record of a part, and with more records or none, settles the part with its last incumbent, once nothing is open
/// or out: from accepted records that are sound from the prefixes of the first one, by any run.
pub fn parts_settle()
    ensures { (dp : Dp) → IsLawful dp → PartsSettle dp }
{}

/// Where each part of a good board is settled with a value, the greatest of the incumbent and of these values is the best one; within a
/// distance no solution is further above it.
pub fn parts_join()
    ensures { (dp : Dp) (b : BoardState) (of : ℕ) (found : ℕ → Option ℤ) → IsBoard dp b → IsGood dp b → 0 < of → PartsJoin dp b of found }
{}

/// A part that is dealt out again: where each of its parts is settled with a value, the greatest of the incumbent and of these values settles the
/// prefixes with which it began.
pub fn parts_join_from()
    ensures { (dp : Dp) (starts : List (List ℕ)) (b : BoardState) (of : ℕ) (found : ℕ → Option ℤ) → IsBoard dp b → IsGoodFrom dp starts b → 0 < of
        → ((index : ℕ) → index < of → IsPartSettledWithin dp b (dealt_record of index (snapshot_record b)) (found index)) → AreSettledBy dp starts b.settings.within (joined_value b of found) }
{}

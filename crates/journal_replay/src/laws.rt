//! What replay keeps, and how a board keeps up with its records.

ghost use Rattle.dp_model.specs.Dp.{Dp};
ghost use Rattle.dp_model.specs.Laws.{IsLawful};
ghost use Rattle.journal_replay.specs.Parts.{PartsAreRecorded};
ghost use Rattle.journal_replay.specs.Laws.{AcceptedRestore, FirstBoardsFollow, JournalsGrow, RecordsDoNotWorsen, RecordsJoin, RestoredBoardsFollow, SnapshotsAreRecorded, SoundRestoreGood, StepsAreRecorded};

/// A board may be restored from what accepted records make of a search.
pub fn accepted_records_restore()
    ensures { (dp : Dp) → IsLawful dp → AcceptedRestore dp }
{}

/// Accepted and sound records are restored to a good board, from the start prefixes from which they are sound.
pub fn sound_records_restore_good()
    ensures { (dp : Dp) → IsLawful dp → SoundRestoreGood dp }
{}

/// The first board stands beside no records, and these are sound.
pub fn first_boards_follow()
    ensures { (dp : Dp) → IsLawful dp → FirstBoardsFollow dp }
{}

/// A restored board stands beside what it was restored from.
pub fn restored_boards_follow()
    ensures { (dp : Dp) → RestoredBoardsFollow dp }
{}

/// Each step that is allowed has one record or none, which may follow, and leads to a board beside it. On a good board the
/// records stay sound.
pub fn steps_are_recorded()
    ensures { (dp : Dp) → IsLawful dp → StepsAreRecorded dp }
{}

/// The snapshot of a board may follow and tells what is there, and the board stands beside it. On a good board it is sound, whatever
/// the records before it were.
pub fn snapshots_are_recorded()
    ensures { (dp : Dp) → SnapshotsAreRecorded dp }
{}

/// A search may begin with a part of a board's snapshot, and where the board is good, the record is sound from the prefixes that it lists.
pub fn parts_are_recorded()
    ensures { (dp : Dp) → IsLawful dp → PartsAreRecorded dp }
{}

/// No record that a search adds itself worsens the incumbent.
pub fn records_do_not_worsen()
    ensures { (dp : Dp) → RecordsDoNotWorsen dp }
{}

/// Records after records are accepted and sound where both parts are, and then the first part is.
pub fn records_join()
    ensures { (dp : Dp) → RecordsJoin dp }
{}

/// A journal whose records are accepted, with more that may follow, is accepted, and so with soundness. Each front of what is added
/// may follow too, so this holds at every moment of a search.
pub fn journals_grow()
    ensures { (dp : Dp) → JournalsGrow dp }
{}

//! Parts that are dealt out of a stopped search.

ghost use Rattle.std.specs.Prelude.{◌≡◌, ◌⊎◌, ◌^◌, ◌-◌, ◌<◌, length, IfErr, IfOk, OnOk};
ghost use Rattle.std.specs.Arc.{arc_value};
ghost use Rattle.dp_model.specs.Distances.{IsDistance};
ghost use Rattle.journal_bytes.specs.Journal.{head_view, journal_view};
ghost use Rattle.journal_bytes.specs.Spelling.{HasTickets};
ghost use Rattle.journal_bytes.specs.Views.{record_view};
ghost use Rattle.journal_replay.specs.Accepting.{AreAccepted, AreRefused};
ghost use Rattle.journal_replay.specs.Following.{snapshot_record};
ghost use Rattle.part_records.specs.Parts.{dealt_record};
ghost use Rattle.problem_names.specs.Parts.{IsPart};
ghost use Rattle.problems.specs.Theories.{theory_of};
ghost use Rattle.answers.specs.Splits.{IsFileOf, Splits, SplitsIn, SplitsJournal, idle_settings, part_head, part_record, stopped_board};

use crate::journaling::open_journal;
use board::{Board, Settings};
use disk::Disk;
use dp_model::{DpModel, OutOfMemory};
use journal_bytes::{Head, Part, Record, Records};
use journal_file::{JournalError, Tail};
use journal_replay::replay;
use kept_board::snapshot_of;
use part_files::{PartError, part_bytes};
use part_records::part_of;
use problem_names::PartNumber;
use problem_theory::{Problem, ReadInstanceError};
use problems::by_name;
use solver_report::Answer;
use std::alloc::Global;
use std::sync::Arc;

/// The answer with a part of the stopped search whose journal is in the named file: a journal with which a search of the part goes on. The
/// search is dealt out by its frontier; the same journal gives the same parts, and that of a part can be split again. Otherwise answers why
/// there is no part: the file is no journal, its head spells no instance, a record may not follow, or the part is too long. Nothing is
/// written.
pub fn split_journal<D: Disk>(alloc: Global, disk: &mut D, path: &str, part: PartNumber) -> Answer
    requires { IsPart part }
    ensures { Splits D.Disk part path.now disk.old disk.new result }
{
    match open_journal(alloc, disk, path) {
        Ok((head, records, tail)) => split_opened(alloc, head, &records, tail, part),
        Err(error) => Answer::Journal(error),
    }
}

/// The same for a journal that was read, by the problem in its head.
fn split_opened(
    alloc: Global,
    head: Head,
    records: &Records,
    tail: Tail,
    part: PartNumber,
) -> Answer
    requires part { IsPart part }
    requires text { length head.text.items < 2 ^ 32 - 1 }
    requires distance { IsDistance head.within }
    requires within { records.now.within ≡ head.within }
    ensures { (result ≡ Answer.OutOfMemory) ⊎ SplitsJournal part (journal_view (head, records.now, tail)) records.now.first result }
{
    let model = head.model;
    by_name!(model, split_instance(alloc, head, records, tail, part))
}

/// The same for a journal of this problem.
fn split_instance<P: Problem>(
    alloc: Global,
    head: Head,
    records: &Records,
    tail: Tail,
    part: PartNumber,
) -> Answer
    requires part { IsPart part }
    requires named { theory_of head.model ≡ P.theory }
    requires text { length head.text.items < 2 ^ 32 - 1 }
    requires distance { IsDistance head.within }
    requires within { records.now.within ≡ head.within }
    ensures { (result ≡ Answer.OutOfMemory) ⊎ SplitsJournal part (journal_view (head, records.now, tail)) records.now.first result }
{
    match P::read(alloc, head.text.as_slice()) {
        Ok(model) => split_model(alloc, model, head, records, tail, part),
        Err(ReadInstanceError::Refused(_)) => {
            Answer::Journal(JournalError::Malformed { offset: 0 })
        }
        Err(ReadInstanceError::OutOfMemory) => Answer::OutOfMemory,
    }
}

/// The same for the instance in the head.
fn split_model<M: DpModel>(
    alloc: Global,
    model: M,
    head: Head,
    records: &Records,
    tail: Tail,
    part: PartNumber,
) -> Answer
    requires part { IsPart part }
    requires text { length head.text.items < 2 ^ 32 - 1 }
    requires distance { IsDistance head.within }
    requires within { records.now.within ≡ head.within }
    ensures { SplitsIn (M.meaning (M.numbers model)) (journal_view (head, records.now, tail)) records.now.first part result }
{
    match part_record(alloc, model, records, part) {
        Ok(record) => part_file(alloc, head, tail, part, &record),
        Err(error) => Answer::Journal(error),
    }
}

/// The answer with the bytes of a part. Its journal has this record. `head` and `tail` are those of the journal that is split.
fn part_file(alloc: Global, head: Head, tail: Tail, part: PartNumber, entry: &Record) -> Answer
    requires part { IsPart part }
    requires text { length head.text.items < 2 ^ 32 - 1 }
    requires distance { IsDistance head.within }
    requires tickets { HasTickets (record_view entry.now) }
    ensures { IsFileOf (part_head (head_view tail.version head) tail.digest part) (record_view entry.now) result }
{
    let digest = tail.digest;
    let of_part = Part {
        index: part.index,
        of: part.of,
        digest,
    };
    let head = Head {
        part: Some(of_part),
        ..head
    };
    match part_bytes(alloc, &head, entry) {
        Ok(bytes) => Answer::PartFile(bytes),
        Err(PartError::TooLarge) => Answer::PartTooLarge,
        Err(PartError::OutOfMemory) => Answer::OutOfMemory,
    }
}

/// The record of a part of the board that the records make. It is refused as `replay` says.
fn part_record<M: DpModel>(
    alloc: Global,
    model: M,
    records: &Records,
    part: PartNumber,
) -> Result<Record, JournalError>
    requires part { IsPart part }
    requires distance { IsDistance records.now.within }
    ensures accepted { OnOk result (AreAccepted (M.meaning (M.numbers model)) records.now.records) }
    ensures record { IfOk result (λ r. record_view r ≡ part_record (M.meaning (M.numbers model)) records.now.within records.now.records part) }
    ensures refused { IfErr result (AreRefused (M.meaning (M.numbers model)) records.now.first records.now.records) }
{
    let Ok(model) = Arc::new(alloc, model) else {
        return Err(JournalError::OutOfMemory);
    };
    let board = stopped_board(alloc, &model, records)?;
    match dealt_record(alloc, &board, part) {
        Ok(record) => Ok(record),
        Err(_) => Err(JournalError::OutOfMemory),
    }
}

/// The settings of a board of which no search is made.
fn idle_settings(within: i64) -> Settings
    ensures { result ≡ idle_settings within }
{
    Settings {
        workers: 1,
        budget: 0,
        table_limit: 0,
        width: 1,
        within,
    }
}

/// The board of a stopped search, from the records of its journal. It is refused as `replay` says.
pub(crate) fn stopped_board<M: DpModel>(
    alloc: Global,
    model: &Arc<M>,
    records: &Records,
) -> Result<Board<M>, JournalError>
    requires { IsDistance records.now.within }
    ensures accepted { OnOk result (AreAccepted (M.meaning (M.numbers (arc_value model.now))) records.now.records) }
    ensures numbers { IfOk result (λ b. b.numbers ≡ M.numbers (arc_value model.now)) }
    ensures board { IfOk result (λ b. b.board ≡ stopped_board (M.meaning (M.numbers (arc_value model.now))) records.now.within records.now.records) }
    ensures refused { IfErr result (AreRefused (M.meaning (M.numbers (arc_value model.now))) records.now.first records.now.records) }
{
    let Ok(model) = Arc::try_clone(model) else {
        return Err(JournalError::OutOfMemory);
    };
    let settings = idle_settings(records.within());
    replay(alloc, records, model, settings)
}

/// The record of a part of the board.
fn dealt_record<M: DpModel>(
    alloc: Global,
    board: &Board<M>,
    part: PartNumber,
) -> Result<Record, OutOfMemory>
    requires { IsPart part }
    ensures { IfOk result (λ r. record_view r ≡ dealt_record part.of part.index (snapshot_record board.now.board)) }
{
    let snapshot = snapshot_of(alloc, board)?;
    part_of(alloc, snapshot, part.of as usize, part.index as usize)
}

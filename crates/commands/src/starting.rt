//! What a search needs beside the disk.

ghost use Rattle.std.specs.Prelude.{◌≡◌, ◌≤◌, IfOk, IfErr, OnOk};
ghost use Rattle.std.specs.Arc.{arc_value};
ghost use Rattle.board_laws.specs.Board.{AreSettings};
ghost use Rattle.board_laws.specs.GoodBoard.{IsGood};
ghost use Rattle.board_laws.specs.Steps.{first_board};
ghost use Rattle.journal_replay.specs.Accepting.{AreAccepted, AreRefused};
ghost use Rattle.journal_replay.specs.Replay.{replay_of, restored_from};
ghost use Rattle.solver_words.specs.Possible.{MaySearch};
ghost use Rattle.answers.specs.Widths.{IsAskedWidth};
ghost use Rattle.search_workers.specs.Prepared.{AreDesks};
ghost use Rattle.commands.specs.Desks.{AreAllDesks, book_for};
ghost use Rattle.commands.specs.Starts.{ArePrepared, DoesNotGoOn, GoesOnFrom, HasBegun, IsUnready, settings_for, unprepared};

use crate::books::book_for;
use board::{Board, Settings};
use dp_model::{DpModel, OutOfMemory};
use journal_bytes::Records;
use journal_file::JournalError;
use journal_replay::replay;
use layer_build::{PrepareError, greatest_width};
use search_workers::Desk;
use solver_report::Answer;
use solver_words::JobSettings;
use std::alloc::Global;
use std::sync::Arc;

/// The greatest number of entries of the dominance table.
const TABLE_LIMIT: u32 = 4096;

/// The width of a search for which none is given, unless the greatest width of the instance is less.
const DEFAULT_WIDTH: u32 = 100;

/// An instance, the board that its search goes on from, and a desk for each worker.
#[derive(Drop)]
pub struct Start<M: DpModel> {
    /// The instance.
    pub model: Arc<M>,
    /// The board that the search goes on from.
    pub board: Board<M>,
    /// A desk for each worker.
    pub desks: Vec<Desk>,
}

/// The start of a search of the instance. Otherwise the answer: the width is refused if it is 0 or above the greatest width of the
/// instance, or there is no memory.
pub fn begin_search<M: DpModel>(
    alloc: Global,
    model: M,
    search: JobSettings,
) -> Result<Start<M>, Answer>
    requires may { MaySearch search }
    ensures model { IfOk result (λ s. M.numbers (arc_value s.model) ≡ M.numbers model) }
    ensures numbers { IfOk result (λ s. s.board.numbers ≡ M.numbers model) }
    ensures begun { IfOk result (λ s. HasBegun (M.meaning (M.numbers model)) search s.board s.desks) }
    ensures refused { IfErr result (IsUnready (M.meaning (M.numbers model)) search) }
{
    let (settings, desks) = prepared(alloc, &model, search)?;
    match begun(alloc, model, settings) {
        Ok((model, board)) => Ok(Start {
            model,
            board,
            desks,
        }),
        Err(_) => Err(Answer::OutOfMemory),
    }
}

/// The start of a search of the instance that goes on from the records, within their distance. Otherwise the answer: the width is refused
/// as in `begin_search`, then the first record that may not follow is refused, or there is no memory.
pub fn go_on<M: DpModel>(
    alloc: Global,
    model: M,
    records: &Records,
    search: JobSettings,
) -> Result<Start<M>, Answer>
    requires may { MaySearch search }
    requires within { search.within ≡ records.now.within }
    ensures model { IfOk result (λ s. M.numbers (arc_value s.model) ≡ M.numbers model) }
    ensures numbers { IfOk result (λ s. s.board.numbers ≡ M.numbers model) }
    ensures goes_on { IfOk result (λ s. GoesOnFrom (M.meaning (M.numbers model)) search records.now s.board s.desks) }
    ensures refused { IfErr result (DoesNotGoOn (M.meaning (M.numbers model)) search records.now) }
{
    let (settings, desks) = prepared(alloc, &model, search)?;
    match restored(alloc, model, records, settings) {
        Ok((model, board)) => Ok(Start {
            model,
            board,
            desks,
        }),
        Err(error) => Err(Answer::Journal(error)),
    }
}

/// The settings of the search of the instance, and a desk for each worker. It is refused as `begin_search` says.
fn prepared<M: DpModel>(
    alloc: Global,
    model: &M,
    search: JobSettings,
) -> Result<(Settings, Vec<Desk>), Answer>
    requires { MaySearch search }
    ensures prepared { IfOk result (λ r. ArePrepared (M.meaning (M.numbers model.now)) search r.0 r.1) }
    ensures settings { IfOk result (λ r. AreSettings r.0) }
    ensures refused { IfErr result (IsUnready (M.meaning (M.numbers model.now)) search) }
{
    let width = width_for(model, search.width);
    match desks_for(alloc, model, width, search) {
        Ok(desks) => Ok((settings_for(search, width), desks)),
        Err(error) => Err(unprepared(error)),
    }
}

/// The width of a search: the given one, or the default width if none is given.
fn width_for<M: DpModel>(model: &M, given: Option<u32>) -> u32
    ensures { IsAskedWidth (M.meaning (M.numbers model.now)) given result }
{
    match given {
        Some(width) => width,
        None => greatest_width(model).min(DEFAULT_WIDTH),
    }
}

/// A desk for each worker.
fn desks_for<M: DpModel>(
    alloc: Global,
    model: &M,
    width: u32,
    search: JobSettings,
) -> Result<Vec<Desk>, PrepareError>
    requires { MaySearch search }
    ensures { AreAllDesks (M.meaning (M.numbers model.now)) width search result }
{
    let first = desk_for(alloc, model, width, search)?;
    let Ok(mut desks) = Vec::with_capacity(alloc, search.workers as usize) else {
        return Err(PrepareError::OutOfMemory);
    };
    desks.push_reserved(first);
    for _made in 1..search.workers {
        desks.push_reserved(desk_for(alloc, model, width, search)?);
    }
    Ok(desks)
}

/// A desk for a worker, with a book if a cover is asked for. It makes layers in as many parts as are asked for.
fn desk_for<M: DpModel>(
    alloc: Global,
    model: &M,
    width: u32,
    search: JobSettings,
) -> Result<Desk, PrepareError>
    requires { MaySearch search }
    ensures desk { AreDesks (M.meaning (M.numbers model.now)) width result }
    ensures kind { IfOk result (λ desk. desk.kind ≡ search.cutset) }
    ensures book { IfOk result (λ desk. desk.book ≡ book_for (M.meaning (M.numbers model.now)) search) }
    ensures parts { IfOk result (λ desk. desk.parts ≡ search.parts) }
{
    let book = book_for(alloc, model, search);
    Desk::prepare(alloc, model, width, search.cutset, book, search.parts)
}

/// The answer where no desks are prepared.
fn unprepared(error: PrepareError) -> Answer
    ensures { result ≡ unprepared error }
{
    match error {
        PrepareError::Width => Answer::Width,
        PrepareError::OutOfMemory => Answer::OutOfMemory,
    }
}

/// The settings of a search with diagrams of this width.
fn settings_for(search: JobSettings, width: u32) -> Settings
    ensures { result ≡ settings_for search width }
{
    Settings {
        workers: search.workers,
        budget: search.budget,
        table_limit: TABLE_LIMIT,
        width,
        within: search.within,
    }
}

/// The instance, and the board at the start of its search.
fn begun<M: DpModel>(
    alloc: Global,
    model: M,
    settings: Settings,
) -> Result<(Arc<M>, Board<M>), OutOfMemory>
    requires { AreSettings settings }
    ensures model { IfOk result (λ r. M.numbers (arc_value r.0) ≡ M.numbers model) }
    ensures numbers { IfOk result (λ r. r.1.numbers ≡ M.numbers model) }
    ensures board { IfOk result (λ r. r.1.board ≡ first_board (M.meaning (M.numbers model)) settings) }
    ensures first { IfOk result (λ r. r.1.first ≡ r.1.board) }
    ensures good { IfOk result (λ r. IsGood (M.meaning (M.numbers model)) r.1.first) }
{
    let model = Arc::new(alloc, model)?;
    let board = Board::begin(alloc, Arc::try_clone(&model)?, settings)?;
    Ok((model, board))
}

/// The instance, and the board that goes on from the records, within their distance. It is refused as `replay` says.
fn restored<M: DpModel>(
    alloc: Global,
    model: M,
    records: &Records,
    settings: Settings,
) -> Result<(Arc<M>, Board<M>), JournalError>
    requires settings { AreSettings settings }
    requires within { settings.within ≡ records.now.within }
    ensures accepted { OnOk result (AreAccepted (M.meaning (M.numbers model)) records.now.records) }
    ensures model { IfOk result (λ r. M.numbers (arc_value r.0) ≡ M.numbers model) }
    ensures numbers { IfOk result (λ r. r.1.numbers ≡ M.numbers model) }
    ensures board { IfOk result (λ r. r.1.board ≡ restored_from settings (replay_of (M.meaning (M.numbers model)) records.now.records)) }
    ensures first { IfOk result (λ r. r.1.first ≡ r.1.board) }
    ensures refused { IfErr result (AreRefused (M.meaning (M.numbers model)) records.now.first records.now.records) }
{
    let Ok(model) = Arc::new(alloc, model) else {
        return Err(JournalError::OutOfMemory);
    };
    let board = replay(alloc, records, Arc::try_clone(&model)?, settings)?;
    Ok((model, board))
}

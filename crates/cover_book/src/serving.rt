//! Rows that serve others of their layer: an arc to a row may lead to any row whose bound, lifted by the gap to it, is at most its own.

ghost use Rattle.std.specs.Prelude.{◌≡◌, ◌<◌, ◌≤◌, length, IfOk, IfSome};
ghost use Rattle.dp_model.specs.Gaps.{IsStateOf};
ghost use Rattle.dp_model.specs.Lists.{Each};
ghost use Rattle.cover_book.specs.Servers.{IsServer};

use bound_cover::is_state_row;
use dp_model::{DpModel, OutOfMemory};
use std::alloc::Global;
use std::marker::Model;

/// A row that may serve others.
#[derive(Debug, Drop)]
pub(crate) struct Server {
    words: Vec<i64>,
    rank: i64,
    bound: Option<i64>,
    pub(crate) number: u32,
}

/// Which rows are compared with the serving rows: every row at first, and one in `STRIDE` after `MANY` compared rows of which fewer than
/// `ENOUGH` were served.
#[derive(Clone, Copy, Debug)]
struct Pace {
    is_slow: bool,
    // How many rows were left out since the last compared one.
    left_out: u32,
    // How many rows were compared, and how many of them were served, since the last reset of these counts.
    compared: u32,
    served: u32,
}

/// The strongest rows of a layer that came so far: at most this many, but one at least, those with the least bounds, and of those with the
/// same bound the ones with the greatest ranks.
#[derive(Debug, Drop)]
struct Strongest {
    most: usize,
    list: Vec<Server>,
    // The place of the weakest one.
    weakest: usize,
}

/// Rows of a layer of a problem that serve others, the strongest ones.
#[derive(Drop)]
pub(crate) struct Servers<'m, M: DpModel> {
    model: &'m M,
    depth: usize,
    strongest: Strongest,
    pace: Pace,
}

impl<'m, M: DpModel> Model for Servers<'m, M> {
    ghost use Rattle.std.specs.Prelude.{ℕ, ◌≤◌};
    ghost use Rattle.dp_model.specs.Lists.{Each};
    ghost use Rattle.cover_book.specs.Servers.{IsServer};

    ghost Value = { ℕ };

    ghost view = { λ s. s.depth };

    ghost invariant = { λ s. (s.depth ≤ (M.meaning (M.numbers s.model.now)).vars)
        × Each (IsServer (M.meaning (M.numbers s.model.now)) s.depth) s.strongest.list.items };
}

/// Once this many compared rows were served, every row is compared again.
const ENOUGH: u32 = 2;

/// If fewer than `ENOUGH` of this many compared rows were served, only one row in `STRIDE` is compared.
const MANY: u32 = 128;

/// While few rows are served, one row in this many is compared.
const STRIDE: u32 = 4;

impl Pace {
    /// Each row is compared.
    fn new() -> Pace {
        Pace {
            is_slow: false,
            left_out: 0,
            compared: 0,
            served: 0,
        }
    }

    /// Whether the next row is to be compared.
    fn is_due(&mut self) -> bool {
        if !self.is_slow {
            return true;
        }
        self.left_out = self.left_out.saturating_add(1);
        if self.left_out < STRIDE {
            return false;
        }
        self.left_out = 0;
        true
    }

    /// Counts a row that was compared.
    fn count(&mut self, is_served: bool) {
        self.compared = self.compared.saturating_add(1);
        if is_served {
            self.served = self.served.saturating_add(1);
        }
        if self.served >= ENOUGH {
            *self = Pace::new();
        } else if self.compared >= MANY {
            self.is_slow = true;
            self.compared = 0;
            self.served = 0;
        }
    }
}

/// The greatest gap at which a row with the one bound serves a row with the other; none where no gap does.
fn most_gap(bound: Option<i64>, wanted: Option<i64>) -> Option<i64> {
    let Some(bound) = bound else {
        return Some(i64::MAX);
    };
    wanted?.checked_sub(bound)
}

/// Whether a row serves another one.
fn serves<M: DpModel>(
    model: &M,
    k: usize,
    server: &Server,
    words: &[i64],
    rank: i64,
    bound: Option<i64>,
) -> bool
    requires server { IsServer (M.meaning (M.numbers model.now)) k server.now }
    requires state { IsStateOf (M.meaning (M.numbers model.now)) k words.now }
    requires rank { rank ≡ (M.meaning (M.numbers model.now)).rank k words.now }
{
    let Some(most) = most_gap(server.bound, bound) else {
        return false;
    };
    let own = server.words.as_slice();
    model
        .covers_within(k, own, server.rank, words, rank, most)
        .is_some()
}

/// The number of the first row that serves another one; none where there is none.
fn number_of_server<M: DpModel>(
    model: &M,
    k: usize,
    servers: &[Server],
    words: &[i64],
    rank: i64,
    bound: Option<i64>,
) -> Option<u32>
    requires servers { Each (IsServer (M.meaning (M.numbers model.now)) k) servers.now }
    requires state { IsStateOf (M.meaning (M.numbers model.now)) k words.now }
    requires rank { rank ≡ (M.meaning (M.numbers model.now)).rank k words.now }
{
    'servers: for i in 0..servers.len() {
        let server = &servers[i];
        if serves(model, k, server, words, rank, bound) {
            return Some(server.number);
        }
    }
    None
}

/// Whether a row comes before a server in strength: by its lesser bound, or by its greater rank where the bounds are the same.
fn is_stronger(rank: i64, bound: Option<i64>, server: &Server) -> bool {
    if bound == server.bound {
        return rank > server.rank;
    }
    match (bound, server.bound) {
        (None, _) => true,
        (Some(_), None) => false,
        (Some(bound), Some(other)) => bound < other,
    }
}

/// The place of the weakest server; 0 where there is none.
fn place_of_weakest(servers: &[Server]) -> usize {
    let mut weakest = 0;
    'servers: for i in 1..servers.len() {
        let server = &servers[i];
        if let Some(other) = servers.get(weakest) {
            if !is_stronger(server.rank, server.bound, other) {
                weakest = i;
            }
        }
    }
    weakest
}

/// Puts in a row that serves: after the others, or at a place of theirs where there are as many as there may be.
fn put_at<M: DpModel>(
    _model: &M,
    _k: usize,
    server: Server,
    most: usize,
    place: usize,
    servers: &mut Vec<Server>,
) -> Result<(), OutOfMemory>
    requires servers { Each (IsServer (M.meaning (M.numbers _model.now)) _k) servers.old.items }
    requires server { IsServer (M.meaning (M.numbers _model.now)) _k server }
    ensures { Each (IsServer (M.meaning (M.numbers _model.now)) _k) servers.new.items }
{
    let count = servers.len();
    if count == 0 || count < most {
        servers.reserve(1)?;
        servers.push_reserved(server);
        return Ok(());
    }
    if place < count {
        servers[place] = server;
    }
    Ok(())
}

/// Puts in a row that serves. Where there are as many as there may be, it takes the place of the weakest one.
fn put_server<M: DpModel>(
    model: &M,
    k: usize,
    server: Server,
    strongest: &mut Strongest,
) -> Result<(), OutOfMemory>
    requires servers { Each (IsServer (M.meaning (M.numbers model.now)) k) strongest.old.list.items }
    requires server { IsServer (M.meaning (M.numbers model.now)) k server }
    ensures { Each (IsServer (M.meaning (M.numbers model.now)) k) strongest.new.list.items }
{
    let (most, place) = (strongest.most, strongest.weakest);
    put_at(model, k, server, most, place, &mut strongest.list)?;
    strongest.weakest = place_of_weakest(strongest.list.as_slice());
    Ok(())
}

/// The rank of a row, where it is a state of the layer.
pub(crate) fn rank_of<M: DpModel>(model: &M, k: usize, words: &[i64]) -> Option<i64>
    requires { k ≤ (M.meaning (M.numbers model.now)).vars }
    ensures { IfSome result (λ rank. IsStateOf (M.meaning (M.numbers model.now)) k words.now × (rank ≡ (M.meaning (M.numbers model.now)).rank k words.now)) }
{
    if is_state_row(model, k, words) {
        Some(model.rank(k, words))
    } else {
        None
    }
}

impl Server {
    /// A row with this rank, which is copied.
    fn of(
        alloc: Global,
        words: &[i64],
        rank: i64,
        bound: Option<i64>,
        number: u32,
    ) -> Result<Server, OutOfMemory>
        ensures words { IfOk result (λ server. server.words.items ≡ words.now) }
        ensures rank { IfOk result (λ server. server.rank ≡ rank) }
    {
        Ok(Server {
            words: words.to_vec(alloc)?,
            rank,
            bound,
            number,
        })
    }
}

impl Strongest {
    /// Whether a row with this rank would be put in: where there are fewer than there may be, or where it is stronger than the weakest.
    fn wants(&self, rank: i64, bound: Option<i64>) -> bool {
        if self.list.len() < self.most {
            return true;
        }
        match self.list.get(self.weakest) {
            None => true,
            Some(weakest) => is_stronger(rank, bound, weakest),
        }
    }
}

impl<'m, M: DpModel> Servers<'m, M> {
    /// No rows of a layer, and later at most this many. It takes no memory.
    pub(crate) fn new(alloc: Global, model: &'m M, depth: usize, most: usize) -> Servers<'m, M>
        requires { depth ≤ (M.meaning (M.numbers model.now)).vars }
    {
        Servers {
            model,
            depth,
            strongest: Strongest {
                most,
                list: Vec::new(alloc),
                weakest: 0,
            },
            pace: Pace::new(),
        }
    }

    /// Lets a row serve, under its number, where it is a state of the layer.
    pub(crate) fn add(
        &mut self,
        alloc: Global,
        words: &[i64],
        bound: Option<i64>,
        number: u32,
    ) -> Result<(), OutOfMemory> {
        let Some(rank) = rank_of(self.model, self.depth, words) else {
            return Ok(());
        };
        if !self.strongest.wants(rank, bound) {
            return Ok(());
        }
        let server = Server::of(alloc, words, rank, bound, number)?;
        put_server(self.model, self.depth, server, &mut self.strongest)
    }

    /// The number of a row that serves another one of its layer; none where there is none.
    pub(crate) fn server_of(&self, words: &[i64], bound: Option<i64>) -> Option<u32> {
        let rank = rank_of(self.model, self.depth, words)?;
        let servers = self.strongest.list.as_slice();
        number_of_server(self.model, self.depth, servers, words, rank, bound)
    }

    /// The number of a row that serves another one of its layer. Where there is none, the other one joins those that serve, under its
    /// own number.
    pub(crate) fn serve(
        &mut self,
        alloc: Global,
        words: &[i64],
        bound: Option<i64>,
        number: u32,
    ) -> Result<Option<u32>, OutOfMemory> {
        let Some(rank) = rank_of(self.model, self.depth, words) else {
            return Ok(None);
        };
        let servers = self.strongest.list.as_slice();
        let found = number_of_server(self.model, self.depth, servers, words, rank, bound);
        if found.is_none() && self.strongest.wants(rank, bound) {
            let server = Server::of(alloc, words, rank, bound, number)?;
            put_server(self.model, self.depth, server, &mut self.strongest)?;
        }
        Ok(found)
    }

    /// Does what `serve` does, but leaves out most rows where hardly any of the last ones was served.
    pub(crate) fn serve_at_pace(
        &mut self,
        alloc: Global,
        words: &[i64],
        bound: Option<i64>,
        number: u32,
    ) -> Result<Option<u32>, OutOfMemory> {
        if !self.pace.is_due() {
            return Ok(None);
        }
        let found = self.serve(alloc, words, bound, number)?;
        self.pace.count(found.is_some());
        Ok(found)
    }
}

/// Whether a row with a bound serves another one of its layer.
pub(crate) fn is_served<M: DpModel>(
    model: &M,
    k: usize,
    words: &[i64],
    bound: Option<i64>,
    other: &[i64],
    wanted: Option<i64>,
) -> bool
    requires { k ≤ (M.meaning (M.numbers model.now)).vars }
{
    let Some(rank) = rank_of(model, k, words) else {
        return false;
    };
    let Some(other_rank) = rank_of(model, k, other) else {
        return false;
    };
    let Some(most) = most_gap(bound, wanted) else {
        return false;
    };
    model
        .covers_within(k, words, rank, other, other_rank, most)
        .is_some()
}

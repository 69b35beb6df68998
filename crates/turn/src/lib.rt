//! A mutex around one value, with a contract for what its users know. `Turn` is the mutex, `hold` locks it, and `Guard::leave` unlocks
//! it. Each thread has a `Seat`, the handle by which it locks. Between lock and unlock it makes at most one move: a change that the
//! type of the value allows.
//!
//! The type of the value implements `Turned`, which says what a move is. A move keeps the tag of the value, never lowers its seen
//! number, and changes no decisions but those that the mover has out. In proofs a seat knows the seen number at its last `leave`, and
//! the decisions that it had out at that time.
//!
//! The crate stands on `atomic_table`. It touches the table by eight kinds of step only: make, split, take, failed take, exchange of
//! the value, leave, park or wake, and join. It promises for every interleaving:
//!
//! - The value that a seat finds has the tag of the first value. Its seen number is no less than what the seat has seen. The decisions
//!   of the seat are still out.
//! - `close` gives a value whose seen number is no less than what any seat has seen. The decisions of each seat are still out, and no
//!   others.
//! - If `Turn::new` fails, it gives the value back.
//!
//! It promises no progress and no fairness.
//!
//! ```
//! let (turn, mut seats) = Turn::new(alloc, board, 2)?;
//! let mut guard = turn.hold(rt, &mut seats[0]);
//! guard.value().halt(Cause::Memory);
//! guard.leave();
//! let board = turn.close(seats);
//! ```
#![tactic(auto)]

mod rule;
mod turn;
mod turned;
mod view;

pub use turn::{Guard, NoTurn, Seat, Turn};
pub use turned::Turned;

//! Workers over one board under a turn, each with a seat and a desk of its own.
//!
//! Each function of the `holding` modules holds the turn once, makes one move, and leaves; its contract says what the seat knows
//! then. What it does with the board meanwhile stands in `moving`. A worker checks its children against the last incumbent that its seat
//! has seen. The incumbent never gets worse, so the check stays valid, and a Finish is never refused because another worker changed the
//! board. A whole search runs workers under the turn, then rounds on the closed board until the search ends. So its result does not
//! depend on how a worker ended.

mod crew;
mod fanning;
mod filling;
mod gate;
mod holding_finish;
mod holding_give_back;
mod holding_improve;
mod holding_snapshot;
mod holding_take;
mod moving;
mod offering;
mod opening;
mod stopped;
mod together;
mod working;
mod worth;

pub use fanning::side_by_side;
pub use gate::{Gate, NoGate, Step};
pub use holding_finish::finish_one;
pub use holding_give_back::give_up;
pub use holding_improve::improve_one;
pub use holding_snapshot::snapshot_one;
pub use holding_take::take_one;
pub use moving::Asked;
pub use opening::{close, open};
pub use stopped::Stopped;
pub use together::{explore_together, fan_out};
pub use working::work;

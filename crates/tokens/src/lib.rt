//! Texts of tokens that are separated by blanks, with the place of each fault.
//!
//! `Tokens` reads numbers and words one after another. A token is a longest run of bytes that are no
//! blanks; the blanks are space, tab, CR and LF. Lines end at LF and count from 1; columns count
//! bytes, from 1. A text may have comment lines, which are passed over. After an error the tokens
//! stand where they stood before the call.
//!
//! `InstanceError` and `ReadModelError` are what the readers of problems answer. `push_number`,
//! `push_spaced`, `push_ended` and `push_text` print. The crate stands on std and on `itoa`.
//!
//! Promised, each in the contract of its call: what each call reads and where it stands afterwards,
//! each fault exactly where it arises and at its place, for texts with numbers of any length; and the
//! bytes that are printed. `push_number` and `push_text` fail only where memory runs out, and not where
//! the capacity suffices.
//!
//! ```
//! let mut tokens = Tokens::new(b"3 10", Comment::Never);
//! let items = tokens.next_natural(1, 1024)?; // 3
//! let room = tokens.next_natural(0, 1 << 40)?; // 10
//! tokens.finish()?;
//! ```
#![tactic(auto)]

mod comment;
mod count;
mod instance_error;
mod place;
mod push;
mod read_model_error;
mod scan;
mod text_error;
mod tokens;

pub use comment::Comment;
pub use count::{MOST_DIGITS, is_count};
pub use instance_error::{InstanceError, InstanceFault};
pub use place::Place;
pub use push::{push_ended, push_number, push_spaced, push_text};
pub use read_model_error::ReadModelError;
pub use scan::ZEROS;
pub use std::alloc::AllocError as OutOfMemory;
pub use text_error::TextError;
pub use tokens::Tokens;

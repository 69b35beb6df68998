//! The text of a cover: the report, the instance, and the rows of each layer.
//!
//! It stands on `bound_cover` for covers in memory, on `tokens` for tokens and places, on `dp_model`, `problem_names` and `itoa`. A text is the lines
//! of a report of `proved`, `proved within` with a distance, or `infeasible`, perhaps with the lines `taken` and `finished`; then
//! `cover` with the problem's name, perhaps `part` with the number of a part and how many parts there are, `instance` with a number of
//! bytes, this many bytes, a section for each layer, and `end`. A row is a line: a bound, the words of a state, and perhaps arcs.
//!
//! Promised: `read_cover` answers exactly what the grammar gives, the first fault with its place included; `open_cover` does so up to the
//! sections, and `OpenCover::check` gives the verdict on these, which are tested as they are read. `push_cover` appends
//! exactly the sections of a cover, which are read as that cover (the law `pushed_is_read`). A whole output that is printed is read as
//! what was printed (`outputs_are_read`), for each cover whose bounds are none or from -2^62 to 2^62 (`push_cover`). `OutOfMemory` may be answered at any input.
//!
//! `read_covers` answers what the grammar gives for one or more texts up to the end of the input.
//!
//! ```
//! let text = read_cover(alloc, &bytes)?;
//! push_cover(&mut out, &model, &text.cover)?;
//! ```
#![tactic(auto)]

mod cover_error;
mod cover_text;
mod digits;
mod fixed;
mod head;
mod instance;
mod layers;
mod printing;
mod reading;
mod rows;
mod several;
mod tested;
mod theory;

pub use cover_error::CoverError;
pub use cover_text::{CoverText, OpenCover};
pub use printing::push_cover;
pub use reading::{open_cover, read_cover};
pub use several::read_covers;
pub use theory::{outputs_are_read, pushed_is_read};

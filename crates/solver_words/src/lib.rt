//! The words of a command, and the job that they ask for.
//!
//! It stands on `clap`, which takes the words apart, on `problem_names` and `dp_model` for the names of problems and cutsets, and on
//! `tokens` for numbers. `read_words` answers exactly the job that the words ask for, or exactly why they are refused, except for want of
//! memory. `specs/Grammar.antt` defines what each word of a line is, and `specs/Words.antt` what each command takes and asks for. A new
//! option or a new command is a name there and in the constants of the commands.
//!
//! ```
//! // The words `solve`, `maxcut`, `--workers`, `4`; the program's name is left out.
//! let job = read_words(alloc, words.as_slice())?;
//! ```
#![tactic(auto)]

mod command;
mod command_syntax;
mod job;
mod limits;
mod reading;
mod values;
mod words_error;

pub use dp_model::MOST_LAYER_PARTS;
pub use job::{Job, JobSettings};
pub use limits::{DEFAULT_COVER_WORDS, MOST_COVER_WORDS};
pub use reading::read_words;
pub use words_error::WordsError;

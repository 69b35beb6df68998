//! The problems that the program knows: the word of each in commands and texts, its byte in journals, and the sizes of its drawn
//! instances; and which part of a problem is meant.
//!
//! It stands on std alone. A further problem adds a variant here, and a line to `ALL`, to each of `text`, `byte` and `sizes`, and to
//! the definitions that these cite.
//!
//! ```
//! let name = ModelName::named("maxcut"); // Some(ModelName::MaxCut)
//! ```
#![tactic(auto)]

mod part;

ghost use Rattle.std.specs.Prelude.{◌≡◌, ◌≤◌, ◌<◌, IfSome};
ghost use Rattle.problem_names.specs.ModelNames.{text_of, byte_of, sizes_of, model_named, model_of_byte, Names};

pub use part::{MOST_PARTS, PartNumber};

/// The problems that the program knows.
#[derive(Clone, Copy, Debug, PartialEq, Eq, Hash)]
pub enum ModelName {
    Knapsack,
    MaxCut,
    MaxTwoSat,
    TspWindows,
    OneMachine,
    Table,
    Qubo,
}

/// The sizes of drawn instances, from the least to the greatest.
#[derive(Clone, Copy, Debug, PartialEq, Eq)]
pub struct Sizes {
    /// The least size.
    pub least: u32,
    /// The greatest size.
    pub most: u32,
}

impl ModelName {
    /// Every problem.
    pub const ALL: [ModelName; 7] = [
        ModelName::Knapsack,
        ModelName::MaxCut,
        ModelName::MaxTwoSat,
        ModelName::TspWindows,
        ModelName::OneMachine,
        ModelName::Table,
        ModelName::Qubo,
    ];

    /// The word that names the problem in commands and texts.
    pub fn text(self) -> &'static str
        ensures { result.now ≡ text_of self }
    {
        match self {
            ModelName::Knapsack => "knapsack",
            ModelName::MaxCut => "maxcut",
            ModelName::MaxTwoSat => "max2sat",
            ModelName::TspWindows => "tsptw",
            ModelName::OneMachine => "tardiness",
            ModelName::Table => "table",
            ModelName::Qubo => "qubo",
        }
    }

    /// The byte of the problem in the head of a journal.
    pub fn byte(self) -> u8
        ensures { result ≡ byte_of self }
    {
        match self {
            ModelName::Knapsack => 1,
            ModelName::MaxCut => 2,
            ModelName::MaxTwoSat => 3,
            ModelName::TspWindows => 4,
            ModelName::OneMachine => 5,
            ModelName::Table => 6,
            ModelName::Qubo => 7,
        }
    }

    /// The sizes of the problem's drawn instances, or `None` if it has none.
    pub fn sizes(self) -> Option<Sizes>
        ensures { result ≡ sizes_of self }
    {
        let (least, most) = match self {
            ModelName::Knapsack => (0, 1000),
            ModelName::MaxCut | ModelName::MaxTwoSat | ModelName::Qubo => (0, 1024),
            ModelName::TspWindows => (1, 300),
            ModelName::OneMachine => (0, 100),
            ModelName::Table => return None,
        };
        Some(Sizes { least, most })
    }

    /// The problem with this word, or `None` exactly if no problem has it.
    #[tactic(auto, using(crate::proofs::Naming::names_exactly))]
    pub fn named(word: &str) -> Option<ModelName>
        ensures answer { result ≡ model_named word.now }
        ensures exactly { Names word.now result }
    {
        found_by(word)
    }

    /// The problem with this byte, or `None` exactly if no problem has it.
    pub fn of_byte(byte: u8) -> Option<ModelName>
        ensures { result ≡ model_of_byte byte }
    {
        ModelName::ALL
            .iter()
            .copied()
            .find(|name| name.byte() == byte)
    }
}

/// The first problem whose word this is.
fn found_by(word: &str) -> Option<ModelName>
    ensures { result ≡ model_named word.now }
{
    ModelName::ALL
        .iter()
        .copied()
        .find(|name| word == name.text())
}

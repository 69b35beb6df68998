use dp_model::CutKind;
use problem_names::{ModelName, PartNumber};

/// The settings of a search.
#[derive(Clone, Copy, Debug, PartialEq, Eq)]
pub struct JobSettings {
    /// The width: the greatest number of nodes of a layer, from 1 to 2^24. `None` if no width is given.
    pub width: Option<u32>,
    /// The number of workers, from 1 to 16.
    pub workers: u32,
    /// The budget: the greatest number of subproblems that are taken.
    pub budget: u64,
    /// Which nodes become children.
    pub cutset: CutKind,
    /// Whether the counts are printed.
    pub stats: bool,
    /// The distance: how far the best value may be above the value of the answer, from 0 to 2^50.
    pub within: i64,
    /// `Some` if a cover is to follow the report of a search that went to its end, with the number of words that the books
    /// may have from which it is made. `None` if no cover is asked for.
    pub cover_words: Option<u64>,
    /// In how many parts a worker makes a layer of a relaxed diagram, from 1 to 64.
    pub parts: u32,
}

/// What the words ask for.
#[derive(Debug, Drop)]
pub enum Job {
    /// Search for a best solution, or one within the distance of the settings. `journal` is the file of its journal, if it keeps one.
    /// `part` is the part of the problem that is searched, if it is not the whole; then the distance is 0 and there is no journal.
    Solve {
        model: ModelName,
        settings: JobSettings,
        journal: Option<String>,
        part: Option<PartNumber>,
    },
    /// Go on with the search whose journal is in the file `path`, within the distance of the journal: that of the settings is 0. No
    /// cover is asked for. `incumbent` tells whether reports of settled parts are read in the input. Their solutions are offered to the
    /// search before it goes on.
    Resume {
        path: String,
        settings: JobSettings,
        incumbent: bool,
    },
    /// Print a part of the search that was stopped and whose journal is in the file `path`: a journal with which a search of the part
    /// goes on.
    Split {
        path: String,
        part: PartNumber,
    },
    /// Check the report and the cover in the input.
    Check,
    /// Join the reports and the covers of all parts of a problem, one after another in the input.
    Join,
    /// Join the reports of all parts of the search whose journal is in the file `path`. They stand one after another in the input.
    JoinReports {
        path: String,
    },
    /// Print the digest of the canonical text of the instance in the input.
    Digest {
        model: ModelName,
    },
    /// Print an instance of size `n` drawn from a seed below 2^31, or solve it. The problem draws instances of this size.
    Generate {
        model: ModelName,
        n: u32,
        seed: u32,
        solve: bool,
    },
}

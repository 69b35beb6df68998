use bound_cover::Cover;
use problem_names::{ModelName, PartNumber};

/// What the text of a cover holds.
#[derive(Debug, Drop)]
pub struct CoverText {
    /// The problem.
    pub model: ModelName,
    /// The part of the problem that the cover is of; none where it is of the whole problem.
    pub part: Option<PartNumber>,
    /// The reported value; none where the report is `infeasible`.
    pub best: Option<i64>,
    /// How far the best value may be above the reported one, from 0 to 2^50; 0 where none is reported.
    pub within: i64,
    /// The reported assignment, which is empty where no value is reported.
    pub assignment: Vec<u32>,
    /// The text of the instance.
    pub instance: Vec<u8>,
    /// The rows.
    pub cover: Cover,
}

/// A text whose sections are still to be read.
#[derive(Debug, Drop)]
pub struct OpenCover<'t> {
    /// The problem.
    pub model: ModelName,
    /// The part of the problem that the cover is of; none where it is of the whole problem.
    pub part: Option<PartNumber>,
    /// The reported value; none where the report is `infeasible`.
    pub best: Option<i64>,
    /// How far the best value may be above the reported one, from 0 to 2^50; 0 where none is reported.
    pub within: i64,
    /// The reported assignment, which is empty where no value is reported.
    pub assignment: Vec<u32>,
    /// The text of the instance.
    pub instance: &'t [u8],
    /// All that stands before the sections.
    pub before: &'t [u8],
    /// The sections and what stands after them.
    pub following: &'t [u8],
}

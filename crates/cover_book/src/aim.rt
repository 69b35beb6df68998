//! What a cover is made for.

use dp_model::DpModel;
use std::alloc::Global;

/// A problem and what its cover claims, with the memory in which the cover is made.
#[derive(Drop)]
pub(crate) struct Aim<'m, M: DpModel> {
    pub(crate) alloc: Global,
    pub(crate) model: &'m M,
    pub(crate) claim: Option<i64>,
}

ghost use Rattle.std.specs.Prelude.{◌≡◌, ◌<◌, IfOk, IsTrue};
ghost use Rattle.std.specs.Arc.{arc_value};

use dp_model::{DpModel, OutOfMemory};
use std::alloc::Global;
use std::sync::Arc;

/// A part of a problem: it allows the first decisions whose remainder by `of` is `index`, and all later ones.
#[derive(Drop)]
pub struct Part<M: DpModel> {
    pub(crate) model: Arc<M>,
    pub(crate) index: u32,
    pub(crate) of: u32,
    // The root of the problem, since `is_state` takes no memory.
    pub(crate) root: Vec<i64>,
    ghost is_part: { index < of },
    ghost root_state: { IsTrue ((M.meaning (M.numbers (arc_value model))).is_state 0 (M.meaning (M.numbers (arc_value model))).root) },
    ghost root_is: { root.items ≡ (M.meaning (M.numbers (arc_value model))).root },
}

impl<M: DpModel> Part<M> {
    /// The part with the number `index` of `of` parts. It fails only for want of memory.
    pub fn new(alloc: Global, model: Arc<M>, index: u32, of: u32) -> Result<Part<M>, OutOfMemory>
        requires { index < of }
        ensures model { IfOk result (λ p. arc_value p.model ≡ arc_value model) }
        ensures index { IfOk result (λ p. p.index ≡ index) }
        ensures of { IfOk result (λ p. p.of ≡ of) }
    {
        let mut root = vec![in alloc; 0; model.words()]?;
        model.root(&mut root);
        Ok(Part {
            model,
            index,
            of,
            root,
        })
    }
}

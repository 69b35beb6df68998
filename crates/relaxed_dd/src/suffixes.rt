//! The suffixes of all nodes, from the last layer up.

ghost use Rattle.std.specs.Prelude.{◌≡◌, ◌+◌, ◌<◌, length};
ghost use Rattle.dp_laws.specs.Rules.Compiling.{with_suffixes};
ghost use Rattle.relaxed_dd.specs.Numbers.{AreLayersWithin};

use dp_model::DpModel;
use layer_build::Workspace;

/// Sets the suffixes of all layers.
pub fn set_all<M: DpModel>(space: &mut Workspace, model: &M)
    requires numbers { AreLayersWithin (M.meaning (M.numbers model.now)) space.old.width (length space.old.prefix) space.old.layers }
    requires whole { length space.old.prefix + length space.old.layers ≡ (M.meaning (M.numbers model.now)).vars + 1 }
    requires some { 0 < length space.old.layers }
    requires vars { space.old.vars ≡ (M.meaning (M.numbers model.now)).vars }
    ensures { space.new ≡ record space.old { layers = with_suffixes (M.meaning (M.numbers model.now)) (length space.old.prefix) space.old.layers } }
{
    let last = model.vars();
    let below = last - space.first_depth();
    'layers: for above in 0..below + 1 {
        space.set_suffixes(last - above);
    }
}

ghost use Rattle.std.specs.Prelude.{◌≡◌, ◌≤◌, true, length, None};
ghost use Rattle.table_model.specs.Shape.{is_small, are_layers};
ghost use Rattle.table_model.specs.Tests.{first_failure};

use crate::layer::Layer;

/// A table whose lists and numbers are within the limits, and whose tests hold: 1 to 65 layers, each of at most 32 states and
/// 32 decisions, and numbers of at most 2^50 in size.
#[derive(Debug, Drop)]
pub struct TableModel {
    pub(crate) root_value: i64,
    pub(crate) layers: Vec<Layer>,
    ghost small: { is_small root_value ≡ true },
    ghost some: { 1 ≤ length layers.items },
    ghost few: { length layers.items ≤ 65 },
    ghost layered: { are_layers layers.items ≡ true },
    ghost tested: { first_failure layers.items ≡ None },
}

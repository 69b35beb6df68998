//! What the layers of a restricted diagram cover where the width takes nothing away.

ghost use Rattle.dp_model.specs.Dp.{Dp};
ghost use Rattle.dp_model.specs.Laws.{IsLawful};
ghost use Rattle.dp_laws.specs.Restricted.Covering.{WholeLayersCover, LastExactCovers, WholeBeamsAreBest};

/// Where the width takes nothing from a layer and those above it, each completion of the prefix is at most the threshold or
/// matched by a member of the layer.
pub fn whole_layers_cover()
    ensures { (dp : Dp) → IsLawful dp → WholeLayersCover dp }
{}

/// Each completion of the prefix is at most the threshold or matched by a member of the last exact layer.
pub fn last_exact_layers_cover()
    ensures { (dp : Dp) → IsLawful dp → LastExactCovers dp }
{}

/// Where the width takes nothing away, each completion of the prefix is at most the threshold or at most the beam.
pub fn whole_beams_are_best()
    ensures { (dp : Dp) → IsLawful dp → WholeBeamsAreBest dp }
{}

//! Only the first nodes of a layer stay.

ghost use Rattle.std.specs.Prelude.{◌≡◌, ℕ, ◌≤◌, List, length, take, unwrap_or};
ghost use Rattle.dp_model.specs.Lists.{Each};
ghost use Rattle.dp_laws.specs.Diagrams.Nodes.{DdNode};
ghost use Rattle.dp_laws.specs.Rules.Redirects.{with_redirected};
ghost use Rattle.dp_laws.specs.Rules.Reducing.{keep_redirects};
ghost use Rattle.layer_candidates.specs.HeldRows.{AreLive, HasExchanged};
ghost use Rattle.layer_nodes.specs.Holding.{AreHeld, places_of};
ghost use Rattle.layer_nodes.specs.Keeping.{kept_route};
ghost use Rattle.layer_nodes.specs.Nodes.{shown_layer, shown_below};
ghost use Rattle.layer_nodes.specs.Redirecting.{AreRerouted};
ghost use Rattle.layer_nodes.specs.Steps.{AreAmong, MayBeLengthened, KeepsNodes, KeepsRoom};

use crate::layer::Layer;
use crate::node::nodes_from;
use crate::redirecting::put_route;
use crate::routing::Route;
use layer_candidates::give_rows;
use row_region::Region;

/// The route without its target where that is at or after the width, or none where the route stays as it is.
fn lose_target(route: Route, width: usize) -> Option<Route>
    ensures { unwrap_or result route ≡ kept_route width route }
{
    let place = route.target?;
    if (place as usize) < width {
        return None;
    }
    Some(Route {
        target: None,
        ..route
    })
}

/// Routes whose targets are at or after the width lose them.
fn keep_targets(routes: &mut [Route], width: usize)
    ensures { (layer : List DdNode) → width ≤ length layer → AreRerouted (keep_redirects width layer) routes.old routes.new }
{
    'routes: for i in 0..routes.len() {
        let route = routes[i];
        let new = lose_target(route, width);
        put_route(routes, i, route, new);
    }
}

/// Arcs of the layer whose targets are at or after the width lose them, and nothing else of it changes.
pub(crate) fn keep_layer_targets(layer: &mut Layer, width: usize)
    requires lengths { Each MayBeLengthened layer.old.nodes }
    ensures nodes { (paths : ℕ → List ℕ) (next : List DdNode) → width ≤ length next → shown_layer paths layer.new.nodes ≡ with_redirected (keep_redirects width next) (shown_layer paths layer.old.nodes) }
    ensures rest { KeepsNodes layer.old layer.new }
{
    keep_targets(layer.routes.as_mut_slice(), width);
}

/// Keeps the first nodes of the next layer, as many as the width, as a restricted layer is reduced; the arcs of the nodes above
/// follow. The rows of the other nodes are given back. It takes no memory.
pub fn keep_first(width: usize, region: &mut Region, above: &mut Layer, next: &mut Layer)
    requires wide { width ≤ length next.old.nodes }
    requires lengths { Each MayBeLengthened above.old.nodes }
    requires held { AreHeld region.old next.old.nodes }
    requires live { AreLive region.old (places_of next.old.nodes) }
    ensures next { (paths : ℕ → List ℕ) → shown_below paths next.new.nodes ≡ take width (shown_below paths next.old.nodes) }
    ensures above { (paths below : ℕ → List ℕ) → shown_layer paths above.new.nodes ≡ with_redirected (keep_redirects width (shown_below below next.old.nodes)) (shown_layer paths above.old.nodes) }
    ensures stay { AreAmong next.old.nodes next.new.nodes }
    ensures rest { KeepsNodes above.old above.new }
    ensures next_rooms { KeepsRoom next.old next.new }
    ensures held { AreHeld region.new next.new.nodes }
    ensures exchanged { HasExchanged region.old (places_of next.old.nodes) region.new (places_of next.new.nodes) }
{
    give_rows(region, nodes_from(next.nodes.as_slice(), width));
    next.nodes.truncate(width);
    keep_layer_targets(above, width);
}

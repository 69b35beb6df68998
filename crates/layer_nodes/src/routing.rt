//! Arcs in memory. An arc names the way that it was made for and is never changed; the route of the way tells where its arcs lead.

ghost use Rattle.std.specs.Prelude.{◌≡◌};
ghost use Rattle.layer_nodes.specs.Routing.{nowhere, route_at, routed};

use dp_laws::DdArc;

/// An arc in memory.
#[derive(Clone, Copy, Debug)]
pub struct StoredArc {
    /// The decision.
    pub decision: u32,
    /// The place of the way that it was made for.
    pub way: u32,
    /// What the decision adds to the value.
    pub gain: i64,
}

/// Where the arcs to a way lead.
#[derive(Clone, Copy, Debug)]
pub struct Route {
    /// The place of their target in the next layer; none where it was struck.
    pub target: Option<u32>,
    /// By how much they are lengthened.
    pub longer: i64,
}

/// The route without a target.
pub fn nowhere() -> Route
    ensures { result ≡ nowhere }
{
    Route {
        target: None,
        longer: 0,
    }
}

/// The route of the way at the place. One that stands after the last route leads nowhere.
fn route_at(routes: &[Route], way: u32) -> Route
    ensures { result ≡ route_at routes.now way }
{
    match routes.get(way as usize) {
        Some(route) => *route,
        None => nowhere(),
    }
}

/// The arc with the route of its way.
pub fn routed(routes: &[Route], arc: StoredArc) -> DdArc
    ensures { result ≡ routed routes.now arc }
{
    let route = route_at(routes, arc.way);
    DdArc {
        decision: arc.decision,
        target: route.target,
        gain: arc.gain,
        longer: route.longer,
    }
}

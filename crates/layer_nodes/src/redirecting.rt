//! Where the arcs into a layer are redirected when its nodes are put into order, taken out or merged.

ghost use Rattle.std.specs.Prelude.{◌≡◌, ◌++◌, ℕ, List, IfOk, Some, set, slice_get, unwrap_or};
ghost use Rattle.dp_model.specs.Lists.{Each};
ghost use Rattle.dp_laws.specs.Rules.Redirects.{Redirect, with_redirected};
ghost use Rattle.dp_laws.specs.Rules.Reducing.{staying};
ghost use Rattle.layer_nodes.specs.Nodes.{shown_layer};
ghost use Rattle.layer_nodes.specs.Redirecting.{redirect_of, IsShort, IsRerouted, AreRerouted};
ghost use Rattle.layer_nodes.specs.Steps.{MayBeLengthened, KeepsNodes};

use crate::layer::Layer;
use crate::routing::Route;
use dp_model::{Fingerprint, MOST_LEADERS, OutOfMemory};
use std::alloc::Global;
use std::marker::Model;

/// The place of an arc's new target, and by how much the arc is lengthened.
#[derive(Clone, Copy, Debug)]
pub(crate) struct Redirect {
    pub(crate) place: u32,
    pub(crate) longer: i64,
}

impl Model for Redirect {
    ghost use Rattle.dp_laws.specs.Rules.Redirects.{Redirect};

    ghost Value = { Redirect };

    ghost view = { λ l. record { place = l.place; longer = l.longer } };

    ghost inverse = { λ l. record { place = l.place; longer = l.longer } };
}

/// An exact node that dominates later ones: its place among the nodes that stay, with its row's place, its value, and the rank and
/// the hash of its state.
#[derive(Clone, Copy, Debug)]
pub(crate) struct LeaderAt {
    pub(crate) place: u32,
    pub(crate) row: u32,
    pub(crate) value: i64,
    pub(crate) print: Fingerprint,
}

/// The memory in which a layer is reduced: where the arcs into each of its nodes are redirected, the leaders, and the cells of a
/// row into which others are merged. It is made once and used again.
#[derive(Debug, Drop)]
pub struct Redirects {
    pub(crate) all: Vec<Option<Redirect>>,
    pub(crate) leaders: Vec<LeaderAt>,
    pub(crate) merged: Vec<i64>,
}

impl Model for Redirects {
    ghost use Rattle.std.specs.Prelude.{◌≤◌, vec_len, vec_capacity};
    ghost use Rattle.dp_model.specs.declared.limits.TheConstants.{MOST_LEADERS};
    ghost use Rattle.layer_nodes.specs.Stored.{Room};

    ghost Value = { Room };

    ghost view = { λ r. record { most = vec_capacity r.all; words = vec_len r.merged } };

    ghost invariant = { λ r. MOST_LEADERS ≤ vec_capacity r.leaders };
}

impl Redirects {
    /// Memory for this many nodes, whose rows have this many cells.
    pub fn prepare(alloc: Global, room: usize, words: usize) -> Result<Redirects, OutOfMemory>
        ensures { IfOk result (λ redirects. redirects ≡ record { most = room; words = words }) }
    {
        Ok(Redirects {
            all: Vec::with_capacity(alloc, room)?,
            leaders: Vec::with_capacity(alloc, MOST_LEADERS)?,
            merged: vec![in alloc; 0i64; words]?,
        })
    }
}

/// Where the target is redirected, or none where it was struck.
fn redirect_of(target: Option<u32>, redirects: &[Option<Redirect>]) -> Option<Redirect>
    ensures { result ≡ redirect_of redirects.now target }
{
    match redirects.get(target? as usize) {
        Some(redirect) => *redirect,
        None => None,
    }
}

/// The route with its new target, and lengthened by as much.
fn redirect_route(route: Route, redirects: &[Option<Redirect>]) -> Route
    requires short { Each IsShort redirects.now }
    ensures { IsRerouted redirects.now route result }
{
    match redirect_of(route.target, redirects) {
        Some(redirect) => Route {
            target: Some(redirect.place),
            longer: route.longer.wrapping_add(redirect.longer),
        },
        None => Route {
            target: None,
            ..route
        },
    }
}

/// The routes get new targets. It says nothing of a route that is too long to be lengthened.
fn redirect_routes(routes: &mut [Route], redirects: &[Option<Redirect>])
    requires short { Each IsShort redirects.now }
    ensures { AreRerouted redirects.now routes.old routes.new }
{
    'routes: for i in 0..routes.len() {
        routes[i] = redirect_route(routes[i], redirects);
    }
}

/// The route with its new target where its old one stands at `first` or after it, or none where it keeps it. The redirects are
/// those of the places from `first` on.
fn redirect_after(route: Route, first: usize, redirects: &[Option<Redirect>]) -> Option<Route>
    requires short { Each IsShort redirects.now }
    ensures { IsRerouted (staying first ++ redirects.now) route (unwrap_or result route) }
{
    let place = (route.target? as usize).checked_sub(first)?;
    let moved = Route {
        target: Some(place as u32),
        ..route
    };
    Some(redirect_route(moved, redirects))
}

/// The route at the place, which is told, becomes the new one where there is one.
pub(crate) fn put_route(routes: &mut [Route], i: usize, route: Route, new: Option<Route>)
    requires { slice_get routes.old i ≡ Some route }
    ensures { routes.new ≡ set routes.old i (unwrap_or new route) }
{
    if let Some(new) = new {
        routes[i] = new;
    }
}

/// The routes whose targets stand at `first` or after it get new ones, by the redirects of the places from there on.
fn redirect_routes_after(routes: &mut [Route], first: usize, redirects: &[Option<Redirect>])
    requires short { Each IsShort redirects.now }
    ensures { AreRerouted (staying first ++ redirects.now) routes.old routes.new }
{
    'routes: for i in 0..routes.len() {
        let route = routes[i];
        let new = redirect_after(route, first, redirects);
        put_route(routes, i, route, new);
    }
}

/// The arcs of the layer whose targets stand at `first` or after it get new ones, and nothing else of it changes.
pub(crate) fn redirect_layer_after(layer: &mut Layer, first: usize, redirects: &[Option<Redirect>])
    requires short { Each IsShort redirects.now }
    requires lengths { Each MayBeLengthened layer.old.nodes }
    ensures nodes { (paths : ℕ → List ℕ) → shown_layer paths layer.new.nodes ≡ with_redirected (staying first ++ redirects.now) (shown_layer paths layer.old.nodes) }
    ensures rest { KeepsNodes layer.old layer.new }
{
    redirect_routes_after(layer.routes.as_mut_slice(), first, redirects);
}

/// The arcs of the layer get new targets, and nothing else of it changes.
pub(crate) fn redirect_layer(layer: &mut Layer, redirects: &[Option<Redirect>])
    requires short { Each IsShort redirects.now }
    requires lengths { Each MayBeLengthened layer.old.nodes }
    ensures nodes { (paths : ℕ → List ℕ) → shown_layer paths layer.new.nodes ≡ with_redirected redirects.now (shown_layer paths layer.old.nodes) }
    ensures rest { KeepsNodes layer.old layer.new }
{
    redirect_routes(layer.routes.as_mut_slice(), redirects);
}

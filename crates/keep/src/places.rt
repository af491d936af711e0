// The argument places of the nodes that stay. Several nodes may have one.

ghost use Rattle.std.specs.Prelude.{◌≡◌, ◌+◌, ◌≤◌, ◌<◌, false, ℕ, length, get_or};
ghost use Rattle.table.specs.Did.{tables};
ghost use Rattle.keep.specs.Placed.{MarksRun, MarksPlaces, PlacesMarked};

use table::read::ReadState;
use table::state::State;
use table::{Shape, wide};

// Those from `first` on stay. Refused (must-fail/): they go (places_go).
fn mark_run(places: &mut [bool], first: usize, many: usize)
    requires { first + many ≤ length places.old }
    ensures { MarksRun first many places.old places.new }
{
    places[first..first + many].fill(true);
}

// Those of node t.
fn mark_its(st: &State<'_>, places: &mut [bool], t: u32)
    requires { (length places.old ≡ 4097) × (t < st.now.used.nodes) }
    ensures { MarksPlaces (tables st.now) t places.old places.new }
{
    if let Shape::Apply(a) = st.node_at(t).shape {
        mark_run(places, wide(a.first), wide(a.many));
    }
}

pub fn mark_places(st: &State<'_>, nodes: &[bool], places: &mut [bool])
    requires { (length nodes.now ≡ 2048) × ((length places.old ≡ 4097) × ((i : ℕ) → get_or places.old i false ≡ false)) }
    ensures { PlacesMarked (tables st.now) nodes.now st.now.used.nodes places.new }
{
    for t in 0..st.used.nodes {
        if !nodes[wide(t)] {
            continue;
        }
        mark_its(st, places, t);
    }
}

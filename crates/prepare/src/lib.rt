// What depends on the graph and the crews alone, prepared once a question: the edges in order and the whole forest;
// with roots the edges around each vertex of it and the distances from all roots; without roots the history of its
// merges. Each kind prepares only what it reads.
// The words of the contracts stand in specs/ and in the definitions of the crate `rules`.
#![tactic(auto)]

pub mod crews;

ghost use Rattle.std.specs.Prelude.{length};
ghost use Rattle.prepare.specs.Preparing.{ForestAsked, ForestPrepared, DistancesAsked, DistancesPrepared, RootedPreparable, RootedPrepared, UnrootedPreparable, UnrootedPrepared};

use distance_table::table::fill_table;
use edges::around::{Around, put_around};
use graph::Graph;
use needs::history::record_merges;
use order::order::order_edges;
use pieces::arcs::put_arcs;
use pieces::pieces::number_up;
use pieces::whole::keep_whole;

// How many edges there are, and how many of them the whole forest has.
#[derive(Clone, Copy)]
pub struct Ready {
    pub edges: usize,
    pub forest: usize,
}

// The edges in order, and the whole forest of them by weight, with all roots joined from the start.
// Keys and spare are scratch of the order.
fn keep_forest(
    g: &Graph,
    roots: &[u16],
    keys: &mut [u64],
    spare: &mut [u64],
    order: &mut [u16],
    kept: &mut [u16],
) -> Ready
    requires { ForestAsked g.now (length keys.old) (length spare.old)
        (length order.old) (length kept.old) }
    ensures { ForestPrepared g.now roots.now
        keys.old keys.new spare.old spare.new order.old
        order.new kept.old kept.new result }
{
    let mut label = [0u16; 256];
    let edges = order_edges(g, keys, spare, order);
    let forest = keep_whole(g, roots, &order[..edges], &mut label, kept);
    Ready { edges, forest }
}

// The distances of all vertices from all roots, and the last edges, over all edges of the graph. The edges by number,
// the bounds and the arcs around each vertex are scratch.
fn prepare_distances(
    g: &Graph,
    roots: &[u16],
    numbers: &mut [u16],
    bounds: &mut [u16],
    all: &mut [u64],
    distances: &mut [u32],
    lasts: &mut [u32],
)
    requires { DistancesAsked g.now roots.now (length numbers.old) (length bounds.old)
        (length all.old) (length distances.old) (length lasts.old) }
    ensures { DistancesPrepared g.now roots.now
        numbers.old numbers.new bounds.old bounds.new all.old
        all.new distances.old distances.new lasts.old lasts.new }
{
    let m = g.edge_count();
    number_up(m, numbers);
    put_around(g, &numbers[..m], bounds, all);
    let n = g.vertex_count();
    fill_table(n, Around { bounds, arcs: all }, roots, distances, lasts);
}

// Everything that crews with roots read. The distances come first, so that the arrays of their scratch serve again: the
// arcs over all edges become the keys of the order, and the arcs over the forest are its spare before they are put.
pub fn prepare_rooted(
    g: &Graph,
    roots: &[u16],
    order: &mut [u16],
    kept: &mut [u16],
    bounds: &mut [u16],
    all: &mut [u64],
    arcs: &mut [u64],
    distances: &mut [u32],
    lasts: &mut [u32],
) -> Ready
    requires { RootedPreparable g.now roots.now order.old kept.old bounds.old
        all.old arcs.old distances.old lasts.old }
    ensures { RootedPrepared g.now roots.now
        order.old order.new kept.old kept.new bounds.old
        bounds.new all.old all.new arcs.old arcs.new
        distances.old distances.new lasts.old lasts.new result }
{
    prepare_distances(g, roots, order, bounds, all, distances, lasts);
    let ready = keep_forest(g, roots, all, arcs, order, kept);
    put_arcs(g, &kept[..ready.forest], bounds, arcs);
    ready
}

// Everything that crews without roots read.
pub fn prepare_unrooted(
    g: &Graph,
    keys: &mut [u64],
    spare: &mut [u64],
    order: &mut [u16],
    kept: &mut [u16],
    total: &mut [u64],
    until: &mut [u16],
) -> Ready
    requires { UnrootedPreparable g.now keys.old spare.old order.old kept.old
        total.old until.old }
    ensures { UnrootedPrepared g.now keys.old
        keys.new spare.old spare.new order.old order.new
        kept.old kept.new total.old total.new until.old
        until.new result }
{
    let ready = keep_forest(g, &[], keys, spare, order, kept);
    record_merges(g, &kept[..ready.forest], total, until);
    ready
}

// The heaviest tree: of a filed cover, and of trees chosen among those that arrays hold.
ghost use Rattle.std.specs.Prelude.{◌≡◌, ◌^◌, ◌<◌, length};
ghost use Rattle.graph.specs.Bytes.{graph_of};
ghost use Rattle.rules.specs.Walk.{total_weight};
ghost use Rattle.rules.specs.Cover.{heaviest};
ghost use Rattle.rules.specs.CoverBytes.{decode};
ghost use Rattle.cover.specs.Chosen.{AllHeld, HeaviestChosen};
ghost use Rattle.cover.specs.Runs.{run_edges, InEntries, CoverGiven};

use crate::index::edges_at;
use crate::read::{entry_edge, trees_in};
use crate::runs::run_end;
use graph::Graph;

// The weight of the edges of a run of entries.
pub fn run_weight(g: &Graph, c: &[u8], from: usize, to: usize) -> u64
    requires { InEntries c.now from to }
    ensures { result ≡ total_weight g.now (run_edges c.now from
        to) }
{
    let mut sum: u64 = 0;
    for i in from..to {
        sum += g.weight(entry_edge(c, i));
    }
    sum
}

// The weight of the heaviest tree of a cover. The entries of one tree stand side by side, so that one walk through the
// entries serves all trees.
pub fn heaviest_tree(g: &Graph, c: &[u8]) -> u64
    requires { CoverGiven g.now c.now }
    ensures { result ≡ heaviest g.now (decode c.now) }
{
    let mut most: u64 = 0;
    let mut from = 0;
    for j in 0..trees_in(c) {
        let to = run_end(c, j, from);
        most = most.max(run_weight(g, c, from, to));
        from = to;
    }
    most
}

// The weight of the edges of a list.
pub fn edges_weight(g: &Graph, edges: &[u16]) -> u64
    requires { length edges.now < 2 ^ 16 }
    ensures { result ≡ total_weight g.now edges.now }
{
    edges.iter().map(|e| g.weight(*e as usize)).sum()
}

// The weight of the heaviest of the chosen trees.
pub fn heaviest_chosen(g: &Graph, bounds: &[u16], edges: &[u16], chosen: &[u16]) -> u64
    requires { AllHeld bounds.now edges.now chosen.now }
    ensures { HeaviestChosen g.now bounds.now
        edges.now chosen.now result }
{
    let mut most: u64 = 0;
    for c in chosen {
        most = most.max(edges_weight(g, edges_at(bounds, edges, *c as usize)));
    }
    most
}

// The trees of a filed cover (34): no tree has a loop, or an edge that is not joined to its start. The entries of one
// tree stand side by side, so that one walk through the entries serves all trees.
ghost use Rattle.std.specs.Prelude.{◌≤◌, ◌<◌};
ghost use Rattle.graph.specs.Bytes.{graph_of};
ghost use Rattle.rules.specs.CoverBytes.{start_in, decode};
ghost use Rattle.cover.specs.Runs.{run_edges};
ghost use Rattle.filed.specs.Parents.{Joinable};
ghost use Rattle.filed.specs.Trees.{RunTaken, RunJoined, TreeGiven, TreeTold, TreesGiven, TreesTold};

use crate::parents::{join_ends, set_apart, stands_for};
use cover::read::{entry_edge, start_in, trees_in};
use cover::runs::run_end;
use graph::Graph;

// Joins the ends of the edges of a run of entries, one edge after the other, as long as they are not yet joined. Says
// whether none were.
fn run_loop_free(g: &Graph, c: &[u8], from: usize, to: usize, parents: &mut [u8]) -> bool
    requires { (from ≤ to) × Joinable g.now parents.old }
    ensures { RunTaken g.now c.now from to
        parents.old parents.new result }
{
    for i in from..to {
        if !join_ends(g, entry_edge(c, i), parents) {
            return false;
        }
    }
    true
}

// Says whether each edge of a run of entries is joined to the start.
fn run_joined(g: &Graph, c: &[u8], from: usize, to: usize, start: usize, parents: &mut [u8]) -> bool
    requires { (start < g.now.vertices) × Joinable g.now
        parents.old }
    ensures { RunJoined g.now c.now from to start
        parents.old parents.new result }
{
    let home = stands_for(parents, start);
    for i in from..to {
        let u = g.one_end(entry_edge(c, i));
        if stands_for(parents, u) != home {
            return false;
        }
    }
    true
}

// Says whether tree j, whose entries are the run, has no loop and no edge that is not joined to its start.
fn tree_right(g: &Graph, c: &[u8], j: usize, from: usize, to: usize, parents: &mut [u8]) -> bool
    requires { TreeGiven g.now c.now j from to parents.old }
    ensures { TreeTold g.now (record {
      start = start_in c.now j;
      edges = run_edges
          c.now from to;
    })
        parents.old parents.new result }
{
    set_apart(parents);
    if !run_loop_free(g, c, from, to, parents) {
        return false;
    }
    run_joined(g, c, from, to, start_in(c, j), parents)
}

// Says whether every tree is so. The parents are scratch.
pub fn trees_right(g: &Graph, c: &[u8], parents: &mut [u8]) -> bool
    requires { TreesGiven g.now c.now parents.old }
    ensures { TreesTold g.now (decode c.now)
        parents.old parents.new result }
{
    let t = trees_in(c);
    let mut from = 0;
    for j in 0..t {
        let to = run_end(c, j, from);
        if !tree_right(g, c, j, from, to, parents) {
            return false;
        }
        from = to;
    }
    true
}

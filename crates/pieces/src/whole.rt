// The forest of the whole graph and the labels that edges make (document 01, steps 1 and 2). One forest serves all
// limits of a question: at a limit it is the whole forest's edges within the limit.
ghost use Rattle.graph.specs.Bytes.{graph_of};
ghost use Rattle.forest.specs.Keeping.{Labelable};
ghost use Rattle.pieces.specs.Whole.{AllJoined, EdgesLabelled, StopAsked, StopFound, WholeAsked, WholeForest, WholeKept, LightForest};

use edges::index::wide;
use edges::light::light_count;
use forest::keep::{join_ends, keep_edges};
use forest::labels::start_labels;
use forest::lowest::lowest_unjoined;
use graph::Graph;

// Joins the ends of each edge, one edge after the other, from the labels given.
fn join_all(g: &Graph, edges: &[u16], label: &mut [u16])
    requires { Labelable g.now label.old }
    ensures { AllJoined g.now edges.now
        label.old label.new }
{
    for e in edges {
        join_ends(g, wide(*e), label);
    }
}

// The labels that the edges make, where all roots ("yards") are joined from the start.
pub fn label_edges(g: &Graph, roots: &[u16], edges: &[u16], label: &mut [u16])
    requires { Labelable g.now label.old }
    ensures { EdgesLabelled g.now roots.now
        edges.now label.old label.new }
{
    start_labels(roots, g.vertex_count(), label);
    join_all(g, edges, label);
}

// The lowest vertex that the edges join to no root ("stop v"), if there is one. The labels are scratch.
pub fn stop_at(g: &Graph, roots: &[u16], edges: &[u16], label: &mut [u16]) -> Option<usize>
    requires { StopAsked g.now roots.now label.old }
    ensures { StopFound g.now roots.now
        edges.now label.old label.new result }
{
    label_edges(g, roots, edges, label);
    lowest_unjoined(label, g.vertex_count(), wide(roots[0]))
}

// The whole forest, from all edges in order, with all roots joined from the start. Says how many edges it has.
pub fn keep_whole(
    g: &Graph,
    roots: &[u16],
    order: &[u16],
    label: &mut [u16],
    kept: &mut [u16],
) -> usize
    requires { WholeAsked g.now order.now label.old kept.old }
    ensures { WholeForest g.now roots.now
        label.old label.new kept.old kept.new result }
{
    start_labels(roots, g.vertex_count(), label);
    keep_edges(g, order, label, kept)
}

// How many edges of the whole forest are within the limit: these are the first, and they are the forest at the limit.
pub fn light_forest(g: &Graph, kept: &[u16], limit: u64) -> usize
    requires { WholeKept g.now kept.now }
    ensures { LightForest g.now kept.now limit result }
{
    light_count(g, kept, limit)
}

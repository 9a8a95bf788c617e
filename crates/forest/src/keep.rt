// Edges taken one after the other, and kept where their ends are not yet joined.
ghost use Rattle.graph.specs.Bytes.{graph_of};
ghost use Rattle.forest.specs.Labelled.{Joined};
ghost use Rattle.forest.specs.Keeping.{Labelable, Keepable, KeptWritten};

use crate::labels::merge_labels;
use edges::index::wide;
use graph::Graph;

// Joins the ends of edge e, and says whether they were not yet joined. Where they were, no label changes.
pub fn join_ends(g: &Graph, e: usize, label: &mut [u16]) -> bool
    requires { Labelable g.now label.old }
    ensures { Joined g.now e label.old label.new
        result }
{
    let u = g.one_end(e);
    let v = g.other_end(e);
    if label[u] == label[v] {
        return false;
    }
    let n = g.vertex_count();
    merge_labels(label, n, u, v);
    true
}

// "Take lines .. and keep each whose ends are not yet joined": the edges in the order given, from the labels given.
// Says how many are kept: fewer than there are vertices, however many edges are given.
pub fn keep_edges(g: &Graph, edges: &[u16], label: &mut [u16], kept: &mut [u16]) -> usize
    requires { Keepable g.now label.old kept.old }
    ensures { KeptWritten g.now edges.now
        label.old label.new kept.old kept.new result }
{
    let mut r = 0;
    for e in edges {
        if join_ends(g, wide(*e), label) {
            kept[r] = *e;
            r += 1;
        }
    }
    r
}

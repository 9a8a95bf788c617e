// The vertex of a part that is nearest to a root (document 01, step 5: "the part's nearest stop"), by the distances of
// all vertices from it.
ghost use Rattle.std.specs.Prelude.{◌≡◌, cond, ltb, get_or};
ghost use Rattle.graph.specs.Bytes.{graph_of};
ghost use Rattle.pieces.specs.Pieces.{tree_of};
ghost use Rattle.distance_table.specs.Nearest.{LookGiven, NearestGiven, Nearest};

use edges::index::wide;
use graph::Graph;

// The nearer of two vertices: u, unless v is nearer.
fn nearer(dist: &[u32], u: usize, v: usize) -> usize
    requires { LookGiven dist.now u v }
    ensures { result ≡ cond (ltb (get_or dist.now v 0) (get_or dist.now u 0)) v u }
{
    if dist[v] < dist[u] {
        return v;
    }
    u
}

// A vertex of the part with this start and these edges that is nearest: the start, unless an end of an edge is nearer.
pub fn nearest_vertex(g: &Graph, dist: &[u32], start: usize, edges: &[u16]) -> usize
    requires { NearestGiven g.now dist.now start }
    ensures { Nearest g.now dist.now (tree_of start
        edges.now) result }
{
    let mut v = start;
    for edge in edges {
        let e = wide(*edge);
        let one = g.one_end(e);
        let other = g.other_end(e);
        v = nearer(dist, v, one);
        v = nearer(dist, v, other);
    }
    v
}

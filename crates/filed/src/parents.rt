// Vertices joined by parents, in an array that has one for each of the 256 vertices that a graph can have. No vertex's
// parent is higher than the vertex, and a vertex that is its own parent stands for all that are joined to it.
ghost use Rattle.std.specs.Prelude.{◌≡◌, ◌<◌, length, get_or};
ghost use Rattle.graph.specs.Bytes.{graph_of, Reads};
ghost use Rattle.filed.specs.Parents.{AllStand, Parents, Found, Joinable, EndsJoined};

use graph::Graph;

// The parent of v.
fn parent(parents: &[u8], v: usize) -> usize
    requires { v < length parents.now }
    ensures { Reads (get_or parents.now v 0) 256 result }
{
    parents[v] as usize
}

// Nothing is joined: each vertex is its own parent.
pub fn set_apart(parents: &mut [u8])
    requires { length parents.old ≡ 256 }
    ensures { AllStand parents.new }
{
    for (v, up) in parents.iter_mut().enumerate() {
        *up = v as u8;
    }
}

// The vertex that stands for v. Every vertex on the way takes its parent's parent, so that ways stay short.
pub fn stands_for(parents: &mut [u8], v: usize) -> usize
    requires { (v < 256) × Parents parents.old }
    ensures { Found v parents.old parents.new result }
{
    let mut x = v;
    let mut up = parent(parents, v);
    while up < x {
        let next = parent(parents, up);
        parents[x] = next as u8;
        x = next;
        up = parent(parents, next);
    }
    x
}

// Joins the ends of edge e, and says whether they were not yet joined: the higher of the two that stand for them takes
// the lower for its parent.
pub fn join_ends(g: &Graph, e: usize, parents: &mut [u8]) -> bool
    requires { Joinable g.now parents.old }
    ensures { EndsJoined g.now e parents.old
        parents.new result }
{
    let u = stands_for(parents, g.one_end(e));
    let v = stands_for(parents, g.other_end(e));
    if u == v {
        return false;
    }
    if u < v {
        parents[v] = u as u8;
        return true;
    }
    parents[u] = v as u8;
    true
}

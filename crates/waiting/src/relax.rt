// Relaxing one arc.
ghost use Rattle.graph.specs.Bytes.{Reads};
ghost use Rattle.waiting.specs.OneArc.{ArcRelaxable, ArcRelaxed};

use crate::last::last_of;

// A distance, to add to.
pub fn wide_distance(x: u32) -> u64
    ensures { Reads x 4294967296 result }
{
    x as u64
}

// Relaxes one arc of u, which has distance d: where the arc's head is nearer this way, it takes that distance, and the
// arc's edge as its last. Says whether it is.
pub fn relax_arc(a: u64, u: usize, d: u64, dist: &mut [u32], last: &mut [u32]) -> bool
    requires { ArcRelaxable a u d dist.old last.old }
    ensures { ArcRelaxed a u d dist.old last.old dist.new last.new result }
{
    let v = edges::arc::arc_head(a);
    let over = d + edges::arc::arc_weight(a);
    let before = dist[v];
    if wide_distance(before) <= over {
        return false;
    }
    dist[v] = over as u32;
    last[v] = last_of(edges::arc::arc_edge(a), u);
    true
}

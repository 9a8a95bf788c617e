// Distances from a root ("yard") over the edges around each vertex, and the shortest paths back to it (document 01,
// step 5). The method is Dijkstra's: of the vertices that are reached and wait, the nearest is settled, and its arcs
// are relaxed. No bytes are read. Who waits, last edges and one arc relaxed stand in the crate `waiting`. The words of
// the contracts stand in specs/.
#![tactic(auto)]

mod relax;
mod start;

ghost use Rattle.std.specs.Prelude.{length};
ghost use Rattle.lists.specs.Put.{PutTo};
ghost use Rattle.distance.specs.Trail.{trail_of, CanGoBack};
ghost use Rattle.distance.specs.Shortest.{Searchable, Searched};

use crate::relax::relax_arcs;
use crate::start::start;
use edges::around::Around;
use waiting::last::{last_edge, vertex_before};
use waiting::wait::{NOBODY, key_of, least_from, put_key, take_key, vertex_of};

// What stands in `dist` for a vertex that no walk leads to. Every distance is below it.
pub(crate) const UNREACHED: u32 = 4294967295;

// The distance of each of n vertices from the root, and the last edge of a shortest path to each that is reached, with
// the vertex before it.
pub fn distances_from(n: usize, around: Around, root: usize, dist: &mut [u32], last: &mut [u32])
    requires { Searchable n around.bounds.now around.arcs.now root dist.old last.old }
    ensures { Searched n around.entry.bounds.now around.entry.arcs.now root dist.old last.old
        dist.new last.new }
{
    let mut wait = [NOBODY; 256];
    let mut low = [NOBODY; 16];
    start(n, root, dist);
    put_key(root, key_of(0, root), &mut wait, &mut low);
    let mut least = least_from(&low, 0);
    while least != NOBODY {
        let u = vertex_of(least);
        take_key(u, &mut wait, &mut low);
        relax_arcs(around, u, dist, last, &mut wait, &mut low);
        least = least_from(&low, 0);
    }
}

// The edges of the trail from v back to the root, written to the front of the array, the last edge first. Says how
// many.
pub fn path_back(last: &[u32], root: usize, v: usize, out: &mut [u16]) -> usize
    requires { CanGoBack last.now root v (length out.old) }
    ensures { PutTo 0 (trail_of last.now root v) out.old out.new result }
{
    let mut at = v;
    let mut r = 0;
    while at != root {
        let x = last[at];
        out[r] = last_edge(x);
        r += 1;
        at = vertex_before(x);
    }
    r
}

// Relaxing the arcs of a vertex.
ghost use Rattle.distance.specs.Relaxing.{Relaxable, AllRelaxed};

use edges::around::Around;
use edges::index::wide;
use waiting::relax::{relax_arc, wide_distance};
use waiting::wait::{key_of, put_key};

// Relaxes all arcs of u. Whoever is nearer by that waits, with the key of its new distance.
pub(crate) fn relax_arcs(
    around: Around,
    u: usize,
    dist: &mut [u32],
    last: &mut [u32],
    wait: &mut [u64],
    low: &mut [u64],
)
    requires { Relaxable around.bounds.now around.arcs.now u dist.old last.old wait.old low.old }
    ensures { AllRelaxed around.entry.bounds.now around.entry.arcs.now u dist.old last.old
        wait.old
        dist.new last.new wait.new low.new }
{
    let d = wide_distance(dist[u]);
    let from = wide(around.bounds[u]);
    let end = wide(around.bounds[u + 1]);
    for a in &around.arcs[from..end] {
        if !relax_arc(*a, u, d, dist, last) {
            continue;
        }
        let v = edges::arc::arc_head(*a);
        put_key(v, key_of(dist[v], v), wait, low);
    }
}

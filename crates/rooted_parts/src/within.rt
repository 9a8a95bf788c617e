// The roots within a trial's limit of each vertex (document 01, step 5), by the distances from all roots.
ghost use Rattle.graph.specs.Bytes.{graph_of};
ghost use Rattle.rooted_parts.specs.Near.{WithinAsked, WithinDone};

use graph::Graph;
use near::vertices::near_vertices;

// For each vertex a word, whose bit j says whether root j is within the limit of it. The words come as zeros.
pub fn roots_within(g: &Graph, roots: &[u16], limit: u64, distances: &[u32], words: &mut [u32])
    requires { WithinAsked g.now roots.now limit distances.now words.old }
    ensures { WithinDone g.now roots.now limit
        words.old words.new }
{
    let n = g.vertex_count();
    near_vertices(distances, roots.len(), limit as u32, &mut words[..n], roots);
}

// The lowest vertex of each component. Nothing is grown for this: the labels that the edges make show the components.
ghost use Rattle.graph.specs.Bytes.{graph_of};
ghost use Rattle.needs.specs.Roots.{RootsAsked, RootsWritten};

use forest::lowest::lowest_of_each;
use graph::Graph;
use pieces::whole::label_edges;

// The lowest vertex of each component that the edges make, rising, written to the front of the array. Says how many
// components there are.
pub fn component_roots(g: &Graph, edges: &[u16], roots: &mut [u16]) -> usize
    requires { RootsAsked g.now roots.old }
    ensures { RootsWritten g.now edges.now
        roots.old roots.new result }
{
    let mut label = [0u16; 256];
    label_edges(g, &[], edges, &mut label);
    lowest_of_each(&label, g.vertex_count(), roots)
}

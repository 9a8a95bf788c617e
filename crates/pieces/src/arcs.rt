// The edges around each vertex over a forest's edges, by rising number: what growing and splitting walk over.
ghost use Rattle.lists.specs.Sort.{rise};
ghost use Rattle.graph.specs.Bytes.{graph_of};
ghost use Rattle.edges.specs.PutAround.{AroundPut};
ghost use Rattle.pieces.specs.Arcs.{ArcsAsked};

use edges::around::put_around;
use edges::sweep::sweep_edges;
use graph::Graph;

// The arcs around each vertex over the edges, by rising number.
pub fn put_arcs(g: &Graph, edges: &[u16], bounds: &mut [u16], arcs: &mut [u64])
    requires { ArcsAsked g.now edges.now bounds.old arcs.old }
    ensures { AroundPut g.now (rise edges.now)
        bounds.old bounds.new arcs.old arcs.new }
{
    let mut rising = [0u16; 256];
    let r = sweep_edges(edges, g.edge_count(), &mut rising);
    put_around(g, &rising[..r], bounds, arcs);
}

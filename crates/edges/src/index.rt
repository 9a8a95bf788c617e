// Elements of the index arrays: numbers of vertices and edges, of two bytes each.
ghost use Rattle.std.specs.Prelude.{◌^◌};
ghost use Rattle.graph.specs.Graph.{weight_of};
ghost use Rattle.graph.specs.Bytes.{graph_of, Reads};

use graph::Graph;

// An element as an index.
pub fn wide(x: u16) -> usize
    ensures { Reads x (2 ^ 16) result }
{
    x as usize
}

// The weight of an edge; 0 past the last edge.
pub fn weight_of(g: &Graph, e: u16) -> u64
    ensures { Reads (weight_of g.now e) (2 ^ 33) result }
{
    g.weight(wide(e))
}

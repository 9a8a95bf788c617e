// The edges of weight at most a limit (document 01, step 1, "drop lines heavier than B").
ghost use Rattle.graph.specs.Bytes.{graph_of};
ghost use Rattle.rules.specs.Order.{ByWeight};
ghost use Rattle.edges.specs.Light.{LightFront};

use crate::index::weight_of;
use graph::Graph;

// How many edges at the front are within the limit, of edges that stand by weight: these are all that are.
pub fn light_count(g: &Graph, edges: &[u16], limit: u64) -> usize
    requires { ByWeight g.now edges.now }
    ensures { LightFront g.now limit edges.now result }
{
    edges.partition_point(|e| weight_of(g, *e) <= limit)
}

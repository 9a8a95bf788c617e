// The class list that a question may bring beside the graph's bytes (document 02, A.3), and its test.
ghost use Rattle.std.specs.Prelude.{◌≡◌, leb};
ghost use Rattle.std.proofs.Math.Option.{some};
ghost use Rattle.graph.specs.Graph.{weight_of};
ghost use Rattle.graph.specs.Bytes.{sheet_graph, graph_of};
ghost use Rattle.graph.specs.Valid.{Valid};
ghost use Rattle.rules.specs.Questions.{surface_fault};
ghost use Rattle.admit.specs.Brought.{lent, WeightsTested};
ghost use Rattle.admit.specs.Refusals.{fault_in};

use crate::refusal::Refusal;
use graph::Graph;

// Says whether the weight of edge e, by its class, is at most 1,000,000. No class more than doubles a weight: one of at
// most half of that needs no look at its class.
fn weight_right(g: &Graph, e: usize) -> bool
    ensures { result ≡ leb (weight_of g.now e) 1000000 }
{
    if g.given_weight(e) <= 500000 {
        return true;
    }
    g.weight(e) <= 1000000
}

// Says whether that is so of every edge.
fn weights_right(g: &Graph) -> bool
    ensures { WeightsTested g.now result }
{
    (0..g.edge_count()).all(|e| weight_right(g, e))
}

// Tests a list of one byte for each edge (53), and the weights by it (54), beside a graph's bytes.
fn admit_list(b: &[u8], list: &[u8]) -> Result<(), Refusal>
    ensures { fault_in result ≡ surface_fault b.now (some list.now) }
{
    if list.len() != graph::sheet_edges(b) {
        return Err(Refusal::Classes);
    }
    if !weights_right(&Graph::new(b, list)) {
        return Err(Refusal::Adjusted);
    }
    Ok(())
}

// Tests the class list beside a graph that passed its check: 53, then 54. Without a list there is nothing to test.
pub(crate) fn admit_classes(b: &[u8], classes: Option<&[u8]>) -> Result<(), Refusal>
    requires { Valid (sheet_graph b.now) }
    ensures { fault_in result ≡ surface_fault b.now (lent classes.entry) }
{
    match classes {
        None => Ok(()),
        Some(list) => admit_list(b, list),
    }
}

// The check of a graph's bytes (document 01: a "sheet") with 11 to 16: whether they are a graph's, and what is wrong
// with them otherwise. It takes any bytes. The words of the contracts stand in specs/: `check_of` is the check.
#![tactic(auto)]

ghost use Rattle.std.specs.Prelude.{◌≡◌};
ghost use Rattle.graph_check.specs.Check.{number_of, says, check_all, check_of};

use graph::Graph;

// What can be wrong with a graph's bytes.
#[derive(Clone, Copy)]
pub enum Cause {
    // The length is not that of so many edges.
    Length,
    // No vertex ("stop"), or too many.
    Vertices,
    // Too many edges ("lines").
    Edges,
    // An edge's end is no vertex.
    End,
    // An edge joins a vertex to itself.
    Loop,
    // An edge's weight is too large.
    Weight,
}

// Document 01's number of a cause.
pub fn number(f: Cause) -> u16
    ensures { result ≡ number_of f }
{
    match f {
        Cause::Length => 11,
        Cause::Vertices => 12,
        Cause::Edges => 13,
        Cause::End => 14,
        Cause::Loop => 15,
        Cause::Weight => 16,
    }
}

// The check edge by edge: how many vertices and edges there are, or the cause of the first fault.
fn check_edges(g: &Graph) -> Result<(usize, usize), Cause>
    ensures { says result ≡ check_all g.now }
{
    let n = g.vertex_count();
    let m = g.edge_count();
    for e in 0..m {
        let one = g.one_end(e);
        let other = g.other_end(e);
        let w = g.weight(e);
        if n <= one {
            return Err(Cause::End);
        }
        if n <= other {
            return Err(Cause::End);
        }
        if one == other {
            return Err(Cause::Loop);
        }
        if 1000000 < w {
            return Err(Cause::Weight);
        }
    }
    Ok((n, m))
}

// The check of a graph's bytes: how many vertices and edges there are, or the cause of the first fault.
pub fn check_graph(b: &[u8]) -> Result<(usize, usize), Cause>
    ensures { says result ≡ check_of b.now }
{
    if b.len() < 4 {
        return Err(Cause::Length);
    }
    let n = graph::u16_within(b, 0);
    let m = graph::u16_within(b, 2);
    if b.len() != 4 + 8 * m {
        return Err(Cause::Length);
    }
    if n == 0 {
        return Err(Cause::Vertices);
    }
    if 256 < n {
        return Err(Cause::Vertices);
    }
    if 2048 < m {
        return Err(Cause::Edges);
    }
    check_edges(&Graph::new(b, &[]))
}

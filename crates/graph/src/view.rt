// A view of a graph's bytes: the caller's own bytes and the two counts, so that an edge is read without counting the
// edges again. No byte is copied. A `Graph` holds one, and every edge is read through it; a function whose parameters are
// plain makes a view and reads through that.
ghost use Rattle.std.specs.Prelude.{◌^◌};
ghost use Rattle.graph.specs.Graph.{one_end, other_end, weight_of};
ghost use Rattle.graph.specs.Bytes.{sheet_graph, Reads};
ghost use Rattle.graph.specs.View.{CountsOf, Views};

// A graph's bytes (document 01: a "sheet"), with how many vertices ("stops") and edges ("lines") there are.
#[derive(Clone, Copy)]
pub struct View<'a> {
    pub bytes: &'a [u8],
    pub vertices: usize,
    pub edges: usize,
}

impl<'a> View<'a> {
    // The view of the bytes, made of them and of their counts.
    pub fn new(b: &'a [u8], n: usize, m: usize) -> View<'a>
        requires { CountsOf (sheet_graph b.now) n m }
        ensures { Views result b.now }
    {
        View {
            bytes: b,
            vertices: n,
            edges: m,
        }
    }

    // One end of edge e; 0 past the last edge.
    pub fn one_end(self, e: usize) -> usize
        requires { Views self self.bytes.now }
        ensures { Reads (one_end (sheet_graph self.entry.bytes.now) e) (2 ^ 16) result }
    {
        crate::one_end_at(self.bytes, self.edges, e)
    }

    // The other end of edge e; 0 past the last edge.
    pub fn other_end(self, e: usize) -> usize
        requires { Views self self.bytes.now }
        ensures { Reads (other_end (sheet_graph self.entry.bytes.now) e) (2 ^ 16) result }
    {
        crate::other_end_at(self.bytes, self.edges, e)
    }

    // The weight of edge e, as given; 0 past the last edge.
    pub fn weight(self, e: usize) -> u64
        requires { Views self self.bytes.now }
        ensures { Reads (weight_of (sheet_graph self.entry.bytes.now) e) (2 ^ 32) result }
    {
        crate::weight_at(self.bytes, self.edges, e)
    }
}

// One end of edge e, read through a view of bytes with n vertices and m edges.
pub fn one_end(b: &[u8], n: usize, m: usize, e: usize) -> usize
    requires { CountsOf (sheet_graph b.now) n m }
    ensures { Reads (one_end (sheet_graph b.now) e) (2 ^ 16) result }
{
    View::new(b, n, m).one_end(e)
}

// The other end of edge e, read through a view.
pub fn other_end(b: &[u8], n: usize, m: usize, e: usize) -> usize
    requires { CountsOf (sheet_graph b.now) n m }
    ensures { Reads (other_end (sheet_graph b.now) e) (2 ^ 16) result }
{
    View::new(b, n, m).other_end(e)
}

// The weight of edge e, as given, read through a view.
pub fn weight(b: &[u8], n: usize, m: usize, e: usize) -> u64
    requires { CountsOf (sheet_graph b.now) n m }
    ensures { Reads (weight_of (sheet_graph b.now) e) (2 ^ 32) result }
{
    View::new(b, n, m).weight(e)
}

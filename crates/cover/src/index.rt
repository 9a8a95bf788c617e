// Index arrays: numbers of two bytes each, and lists that stand one after the other in one array.
ghost use Rattle.std.specs.Prelude.{◌^◌, ◌<◌, get_or};
ghost use Rattle.graph.specs.Bytes.{Reads};
ghost use Rattle.cover.specs.Chosen.{size_at, Readable, EdgesOf};

// Trees held by three arrays: tree c has the start starts[c] and the edges members[cuts[c] .. cuts[c + 1]].
#[derive(Clone, Copy)]
pub struct Pieces<'a> {
    pub starts: &'a [u16],
    pub cuts: &'a [u16],
    pub members: &'a [u16],
}

// The number at a place; 0 past the last.
pub fn number_at(xs: &[u16], i: usize) -> usize
    ensures { Reads (get_or xs.now i 0) (2 ^ 16) result }
{
    if xs.len() <= i {
        return 0;
    }
    xs[i] as usize
}

// How many edges tree c has.
pub(crate) fn size_at(bounds: &[u16], c: usize) -> usize
    requires { c < 2 ^ 16 }
    ensures { Reads (size_at bounds.now c) (2 ^ 16) result }
{
    let from = number_at(bounds, c);
    let to = number_at(bounds, c + 1);
    if to < from {
        return 0;
    }
    to - from
}

// The edges of tree c.
pub fn edges_at<'a>(bounds: &[u16], edges: &'a [u16], c: usize) -> &'a [u16]
    requires { Readable bounds.now edges.now c }
    ensures { EdgesOf bounds.now edges.now c result.now }
{
    let from = number_at(bounds, c);
    let to = number_at(bounds, c + 1);
    &edges[from..to]
}

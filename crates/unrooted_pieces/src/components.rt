// The pieces of the components as trees (document 01, step 7: "start is the lowest stop of the tree, and order is by
// start, then by smallest line"). Piece i has the start starts[i] and the edges flat[cuts[i] .. cuts[i + 1]].
ghost use Rattle.std.specs.Prelude.{◌≡◌};
ghost use Rattle.graph.specs.Bytes.{graph_of};
ghost use Rattle.lists.specs.Segments.{segment};
ghost use Rattle.pieces.specs.Pieces.{tree_of};
ghost use Rattle.unrooted_pieces.specs.Components.{key_of, LowestFound, PieceHeld, PiecesHeld, PiecesGiven, KeysAsked, SegmentRisen, SegmentsRisen, LowestSet, KeysWritten};

use cover::index::{Pieces, edges_at, number_at};
use edges::index::wide;
use graph::Graph;
use order::order::rise_edges;

// The lowest vertex of the tree with this start and these edges.
fn lowest_vertex(g: &Graph, start: usize, edges: &[u16]) -> usize
    ensures { LowestFound g.now start edges.now result }
{
    let mut v = start;
    for edge in edges {
        let e = wide(*edge);
        let one = g.one_end(e);
        let other = g.other_end(e);
        v = v.min(one).min(other);
    }
    v
}

// The edges of a piece, rising.
fn rise_segment(cuts: &[u16], i: usize, members: &mut [u16])
    requires { PieceHeld cuts.now members.old i }
    ensures { SegmentRisen cuts.now i members.old members.new }
{
    let from = wide(cuts[i]);
    let to = wide(cuts[i + 1]);
    rise_edges(&mut members[from..to]);
}

// The edges of each of the first k pieces, rising.
pub fn rise_segments(cuts: &[u16], k: usize, members: &mut [u16])
    requires { PiecesHeld cuts.now members.old k }
    ensures { SegmentsRisen cuts.now k members.old members.new }
{
    for i in 0..k {
        rise_segment(cuts, i, members);
    }
}

// The lowest vertex of a piece that has the given start.
fn piece_lowest(g: &Graph, start: u16, cuts: &[u16], members: &[u16], i: usize) -> u16
    requires { PieceHeld cuts.now members.now i }
    ensures { LowestFound g.now start (segment cuts.now
        members.now i) result }
{
    lowest_vertex(g, wide(start), edges_at(cuts, members, i)) as u16
}

// Each of the first k pieces starts at its lowest vertex now.
pub fn set_lowest(g: &Graph, starts: &mut [u16], cuts: &[u16], members: &[u16], k: usize)
    requires { PiecesGiven starts.old cuts.now members.now k }
    ensures { LowestSet g.now cuts.now
        members.now k starts.old starts.new }
{
    for i in 0..k {
        starts[i] = piece_lowest(g, starts[i], cuts, members, i);
    }
}

// A piece's key: its start, then its smallest edge, which is its first; 0 stands for it where there is none.
fn piece_key(start: u16, cuts: &[u16], members: &[u16], i: usize) -> u32
    requires { PieceHeld cuts.now members.now i }
    ensures { result ≡ key_of (tree_of start (segment cuts.now members.now i)) }
{
    let by_start = wide(start) * 65536;
    (by_start + number_at(edges_at(cuts, members, i), 0)) as u32
}

// The keys of the first k pieces.
pub fn write_keys(pieces: Pieces, k: usize, keys: &mut [u32])
    requires { KeysAsked pieces.starts.now pieces.cuts.now pieces.members.now k keys.old }
    ensures { KeysWritten pieces.entry.starts.now pieces.entry.cuts.now pieces.entry.members.now k keys.old
        keys.new }
{
    for i in 0..k {
        keys[i] = piece_key(pieces.starts[i], pieces.cuts, pieces.members, i);
    }
}

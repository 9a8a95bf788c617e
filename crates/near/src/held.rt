// The roots near each of several trees that three arrays hold, by those near each vertex. So an answer, which has its
// parts split, marks the roots near them.
ghost use Rattle.graph.specs.Bytes.{graph_of};
ghost use Rattle.pieces.specs.Pieces.{tree_of};
ghost use Rattle.near.specs.Held.{PieceAsked, NearTree, NearPiecesAsked, NearPieces};

use cover::index::{Pieces, edges_at, number_at};
use edges::index::wide;
use graph::Graph;

// Those near the tree with this start and these edges: near the start, or near an end of an edge.
fn near_piece(g: &Graph, near: &[u32], start: usize, edges: &[u16]) -> u32
    requires { PieceAsked g.now near.now start }
    ensures { NearTree g.now near.now (tree_of start
        edges.now) result }
{
    let mut word = near[start];
    for edge in edges {
        let e = wide(*edge);
        let one = g.one_end(e);
        let other = g.other_end(e);
        word = word | (near[one] | near[other]);
    }
    word
}

// Those near the tree of each place, a word for each.
pub fn near_pieces(g: &Graph, near: &[u32], pieces: Pieces, places: &[u16], words: &mut [u32])
    requires { NearPiecesAsked g.now near.now pieces.starts.now pieces.cuts.now pieces.members.now
        places.now words.old }
    ensures { NearPieces g.now near.now
        pieces.entry.starts.now pieces.entry.cuts.now pieces.entry.members.now places.now words.old
        words.new }
{
    for (i, place) in places.iter().enumerate() {
        let c = wide(*place);
        let start = number_at(pieces.starts, c);
        words[i] = near_piece(g, near, start, edges_at(pieces.cuts, pieces.members, c));
    }
}

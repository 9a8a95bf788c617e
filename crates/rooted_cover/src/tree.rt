// The tree of one root (document 01, step 6): "a tree is the union of its part if any, a shortest path to it, and what
// is left at the yard". The union's edges are marked, kept in order, and put by rising number.
ghost use Rattle.std.specs.Prelude.{◌≤◌, length};
ghost use Rattle.lists.specs.Segments.{segment};
ghost use Rattle.graph.specs.Bytes.{graph_of};
ghost use Rattle.distance.specs.Trail.{trail_of};
ghost use Rattle.rooted_cover.specs.Tree.{EdgesMarked, most_in_piece, most_on_path, FirstWith, PieceGiven, BackGiven, KeepAsked, TreeKept, ReachGiven, ReachMarked, AssignedGiven, AssignedMarked, RootGiven, RootWritten};

use cover::index::{Pieces, edges_at, number_at};
use distance::path_back;
use distance_table::nearest::nearest_vertex;
use distance_table::table::Table;
use edges::index::wide;
use edges::sweep::mark_edges;
use graph::Graph;
use order::order::rise_edges;
use unions::union::keep_union;

// The first place below a bound where the byte stands; the bound where there is none.
fn place_with(bytes: &[u8], bound: usize, j: usize) -> usize
    requires { bound ≤ length bytes.now }
    ensures { FirstWith bytes.now bound j result }
{
    bytes[..bound]
        .iter()
        .position(|byte| *byte as usize == j)
        .unwrap_or(bound)
}

// Marks the edges of piece c. Says how many.
fn mark_piece(cuts: &[u16], members: &[u16], c: u16, marks: &mut [u8]) -> usize
    requires { PieceGiven cuts.now members.now c (length marks.old) }
    ensures { EdgesMarked (segment cuts.now members.now c) marks.old
        marks.new most_in_piece result }
{
    let edges = edges_at(cuts, members, wide(c));
    mark_edges(edges, marks);
    edges.len()
}

// Marks the edges of the path from vertex v back to the root. Says how many.
fn mark_back(last: &[u32], root: usize, v: usize, marks: &mut [u8]) -> usize
    requires { BackGiven last.now root v (length marks.old) }
    ensures { EdgesMarked (trail_of last.now root v) marks.old marks.new
        most_on_path result }
{
    let mut path = [0u16; 256];
    let r = path_back(last, root, v, &mut path);
    mark_edges(&path[..r], marks);
    r
}

// The marked edges in order, at most so many, kept where their ends are not yet joined, written to the front of the
// array by rising number. Says how many.
fn keep_risen(g: &Graph, order: &[u16], marks: &[u8], tree: &mut [u16], most: usize) -> usize
    requires { KeepAsked g.now order.now marks.now tree.old most }
    ensures { TreeKept g.now marks.now tree.old
        tree.new result }
{
    let r = keep_union(g, order, marks, tree, most);
    rise_edges(&mut tree[..r]);
    r
}

// Marks the edges of a part, and of the path from its vertex nearest to the root back to the root, by the distances
// from the root and the last edges. Says how many, those in both twice.
fn mark_reach(
    g: &Graph,
    row: Table,
    root: usize,
    start: usize,
    edges: &[u16],
    marks: &mut [u8],
) -> usize
    requires { ReachGiven g.now row.distances.now row.lasts.now root start edges.now
        (length marks.old) }
    ensures { ReachMarked g.now row.entry.distances.now
        row.entry.lasts.now root start edges.now marks.old marks.new result }
{
    let v = nearest_vertex(g, row.distances, start, edges);
    mark_edges(edges, marks);
    edges.len() + mark_back(row.lasts, root, v, marks)
}

// Marks the edges of the part that root j has, if it has one, and of the path to it. Says how many, those in both twice.
fn mark_assigned(
    g: &Graph,
    row: Table,
    root: usize,
    pieces: Pieces,
    places: &[u16],
    assignment: &[u8],
    j: usize,
    marks: &mut [u8],
) -> usize
    requires { AssignedGiven g.now row.distances.now row.lasts.now root pieces.starts.now pieces.cuts.now
        pieces.members.now places.now assignment.now j (length marks.old) }
    ensures { AssignedMarked g.now row.entry.distances.now
        row.entry.lasts.now root pieces.entry.starts.now pieces.entry.cuts.now pieces.entry.members.now places.now
        assignment.now j marks.old marks.new result }
{
    let i = place_with(assignment, places.len(), j);
    if places.len() <= i {
        return 0;
    }
    let c = wide(places[i]);
    let start = number_at(pieces.starts, c);
    mark_reach(
        g,
        row,
        root,
        start,
        edges_at(pieces.cuts, pieces.members, c),
        marks,
    )
}

// The edges of root j's tree, written by rising number to the front of the array: of its part if it has one, a shortest
// path to it, and the piece left at the root. Says how many.
pub fn rooted_tree(
    g: &Graph,
    order: &[u16],
    row: Table,
    root: usize,
    pieces: Pieces,
    left: u16,
    places: &[u16],
    assignment: &[u8],
    j: usize,
    tree: &mut [u16],
) -> usize
    requires { RootGiven g.now order.now row.distances.now row.lasts.now root pieces.starts.now
        pieces.cuts.now pieces.members.now left places.now assignment.now j tree.old }
    ensures { RootWritten g.now row.entry.distances.now
        row.entry.lasts.now root pieces.entry.starts.now pieces.entry.cuts.now pieces.entry.members.now left
        places.now assignment.now j tree.old tree.new result }
{
    let mut marks = [0u8; 2048];
    let remaining = mark_piece(pieces.cuts, pieces.members, left, &mut marks);
    let assigned = mark_assigned(g, row, root, pieces, places, assignment, j, &mut marks);
    keep_risen(g, order, &marks, tree, remaining + assigned)
}

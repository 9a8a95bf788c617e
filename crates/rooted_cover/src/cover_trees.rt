// The trees of an accepted rooted trial (document 01, step 6), made root by root, laid one after the other, and written
// as a cover's bytes.
ghost use Rattle.std.specs.Prelude.{length};
ghost use Rattle.graph.specs.Bytes.{graph_of};
ghost use Rattle.rooted_state.specs.Placed.{arrays_of};
ghost use Rattle.rooted_cover.specs.CoverTrees.{TreeGivenAt, TreePut, LayRootsGiven, RootsLaid, CoverAsked, RootedWritten};

use crate::tree::rooted_tree;
use cover::heaviest::heaviest_chosen;
use cover::index::{Pieces, number_at};
use cover::write::write_cover;
use distance_table::table::Table;
use edges::index::wide;
use graph::Graph;
use pieces::pieces::number_up;

// Puts the edges of root j's tree into the array from a place on. Says where they end.
fn put_tree(
    g: &Graph,
    order: &[u16],
    table: Table,
    roots: &[u16],
    pieces: Pieces,
    lefts: &[u16],
    places: &[u16],
    assignment: &[u8],
    j: usize,
    edges: &mut [u16],
    at: usize,
) -> usize
    requires { TreeGivenAt g.now order.now table.distances.now table.lasts.now roots.now
        (arrays_of pieces.starts.now pieces.cuts.now pieces.members.now lefts.now places.now) assignment.now j at
        (length edges.old) }
    ensures { TreePut g.now table.entry.distances.now
        table.entry.lasts.now roots.now (arrays_of pieces.entry.starts.now pieces.entry.cuts.now
        pieces.entry.members.now lefts.now places.now) assignment.now j at
        edges.old edges.new result }
{
    let n = g.vertex_count();
    let root = wide(roots[j]);
    let left = number_at(lefts, j) as u16;
    let from = j * n;
    let to = from + n;
    let row = Table {
        distances: &table.distances[from..to],
        lasts: &table.lasts[from..to],
    };
    let r = rooted_tree(
        g,
        order,
        row,
        root,
        pieces,
        left,
        places,
        assignment,
        j,
        &mut edges[at..],
    );
    at + r
}

// The edges of the trees of all roots, each tree's rising, laid one tree after the other.
fn lay_trees(
    g: &Graph,
    order: &[u16],
    table: Table,
    roots: &[u16],
    pieces: Pieces,
    lefts: &[u16],
    places: &[u16],
    assignment: &[u8],
    bounds: &mut [u16],
    edges: &mut [u16],
)
    requires { LayRootsGiven g.now order.now table.distances.now table.lasts.now roots.now
        (arrays_of pieces.starts.now pieces.cuts.now pieces.members.now lefts.now places.now) assignment.now
        (length bounds.old) (length edges.old) }
    ensures { RootsLaid g.now table.entry.distances.now
        table.entry.lasts.now roots.now (arrays_of pieces.entry.starts.now pieces.entry.cuts.now
        pieces.entry.members.now lefts.now places.now) assignment.now
        bounds.old bounds.new edges.old edges.new }
{
    bounds[0] = 0;
    let mut at = 0;
    for j in 0..roots.len() {
        at = put_tree(
            g, order, table, roots, pieces, lefts, places, assignment, j, edges, at,
        );
        bounds[j + 1] = at as u16;
    }
}

// The cover of an accepted trial, one tree for each root, as the buffer's first bytes. Everything behind the bytes
// stays. Says the weight of the heaviest tree. The trees' edges are laid in an array that is lent, since its size is
// the caller's to choose.
pub fn write_rooted(
    g: &Graph,
    order: &[u16],
    table: Table,
    roots: &[u16],
    pieces: Pieces,
    lefts: &[u16],
    places: &[u16],
    parts: usize,
    assignment: &[u8],
    edges: &mut [u16],
    buf: &mut [u8],
) -> u64
    requires { CoverAsked g.now order.now table.distances.now table.lasts.now roots.now
        (arrays_of pieces.starts.now pieces.cuts.now pieces.members.now lefts.now places.now) parts assignment.now
        (length edges.old) (length buf.old) }
    ensures { RootedWritten g.now roots.now (arrays_of
        pieces.entry.starts.now pieces.entry.cuts.now pieces.entry.members.now lefts.now places.now)
        parts assignment.now
        edges.old edges.new buf.old buf.new result }
{
    let mut bounds = [0u16; 33];
    let mut numbers = [0u16; 32];
    let k = roots.len();
    lay_trees(
        g,
        order,
        table,
        roots,
        pieces,
        lefts,
        &places[..parts],
        assignment,
        &mut bounds,
        edges,
    );
    number_up(k, &mut numbers);
    let heaviest = heaviest_chosen(g, &bounds, edges, &numbers[..k]);
    let trees = Pieces {
        starts: roots,
        cuts: &bounds,
        members: edges,
    };
    write_cover(buf, trees, &numbers[..k]);
    heaviest
}

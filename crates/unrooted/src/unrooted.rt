// The trial at a limit for crews without roots (document 01, a "roving" trial, steps 2 to 4 and 7), where the
// components need no more trees than there may be: the components' trees are split, and the pieces are the trees of the
// answer.
ghost use Rattle.graph.specs.Bytes.{graph_of};
ghost use Rattle.unrooted.specs.Unrooted.{SplitAsked, ComponentsSplit, OrderAsked, TreesOrdered, UnrootedTreesAsked, TreesWritten};

use cover::heaviest::heaviest_chosen;
use cover::index::Pieces;
use cover::write::write_cover;
use edges::around::Around;
use graph::Graph;
use needs::roots::component_roots;
use pieces::arcs::put_arcs;
use pieces::chosen::sort_chosen;
use split::split_forest;
use unrooted_pieces::components::{rise_segments, set_lowest, write_keys};
use unrooted_pieces::tree_places::tree_places;

// How many pieces the components were split into, and how many components there are.
#[derive(Clone, Copy)]
pub struct Split {
    pub pieces: usize,
    pub roots: usize,
}

// What was written: the weight of the heaviest tree, and how many trees.
#[derive(Clone, Copy)]
pub struct Written {
    pub heaviest: u64,
    pub trees: usize,
}

// The components' trees, each rooted at its lowest vertex, split into pieces.
fn split_components(
    g: &Graph,
    edges: &[u16],
    limit: u64,
    starts: &mut [u16],
    cuts: &mut [u16],
    members: &mut [u16],
    lefts: &mut [u16],
) -> Split
    requires { SplitAsked g.now edges.now limit starts.old cuts.old members.old
        lefts.old }
    ensures { ComponentsSplit g.now limit starts.old
        starts.new cuts.old cuts.new members.old members.new
        lefts.old lefts.new result }
{
    let mut roots = [0u16; 256];
    let mut bounds = [0u16; 257];
    let mut arcs = [0u64; 512];
    let k = component_roots(g, edges, &mut roots);
    put_arcs(g, edges, &mut bounds, &mut arcs);
    let n = g.vertex_count();
    let pieces = split_forest(
        n,
        Around {
            bounds: &bounds,
            arcs: &arcs,
        },
        &roots[..k],
        2 * limit,
        starts,
        cuts,
        members,
        lefts,
    );
    Split { pieces, roots: k }
}

// The pieces that are trees of the answer, in its order: each with its edges rising and from its lowest vertex. Says
// how many.
fn order_trees(
    g: &Graph,
    pieces: usize,
    lefts: &[u16],
    starts: &mut [u16],
    cuts: &[u16],
    members: &mut [u16],
    chosen: &mut [u16],
) -> usize
    requires { OrderAsked pieces lefts.now starts.old cuts.now members.old chosen.old }
    ensures { TreesOrdered g.now pieces lefts.now
        starts.old starts.new cuts.now members.old members.new
        chosen.old chosen.new result }
{
    let mut keys = [0u32; 512];
    let t = tree_places(lefts, cuts, chosen);
    rise_segments(cuts, pieces, members);
    set_lowest(g, starts, cuts, members, pieces);
    write_keys(
        Pieces {
            starts,
            cuts,
            members,
        },
        pieces,
        &mut keys,
    );
    sort_chosen(&keys, &mut chosen[..t]);
    t
}

// The trees of the answer at a limit, as the buffer's first bytes: the components at the limit, from the edges of the
// forest there, split into at most 32 trees. Everything behind the bytes stays.
pub(crate) fn unrooted_trees(g: &Graph, edges: &[u16], limit: u64, buf: &mut [u8]) -> Written
    requires { UnrootedTreesAsked g.now edges.now limit buf.old }
    ensures { TreesWritten g.now limit buf.old
        buf.new result }
{
    let mut starts = [0u16; 512];
    let mut cuts = [0u16; 513];
    let mut members = [0u16; 256];
    let mut lefts = [0u16; 256];
    let mut chosen = [0u16; 32];
    let s = split_components(
        g,
        edges,
        limit,
        &mut starts,
        &mut cuts,
        &mut members,
        &mut lefts,
    );
    let left = &lefts[..s.roots];
    let t = order_trees(
        g,
        s.pieces,
        left,
        &mut starts,
        &cuts,
        &mut members,
        &mut chosen,
    );
    let heaviest = heaviest_chosen(g, &cuts, &members, &chosen[..t]);
    let pieces = Pieces {
        starts: &starts,
        cuts: &cuts,
        members: &members,
    };
    write_cover(buf, pieces, &chosen[..t]);
    Written { heaviest, trees: t }
}

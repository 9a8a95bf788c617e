// Splitting the trees of a forest into parts and leftovers (document 01, steps 3 and 4).
// The trees are walked over the edges around each vertex, so that no byte of the graph is read.
// What is done at each node with its bunch stands in the crate `bunches`.
// The words of the contracts stand in specs/: `ForestSplit` is what the public function promises.
#![tactic(auto)]

ghost use Rattle.split.specs.ForestSplit.{lent, Splittable, Unwalked, RootsWalked, ForestSplit};

mod walk;

use bunches::Progress;
use bunches::piece::put_piece;
use edges::around::Around;
use walk::walk_node;

// The trees of the roots, one after the other, each walked and split; no vertex has a mark yet.
// The stack has a place for each vertex, and so have the marks.
fn split_roots(
    around: Around,
    roots: &[u16],
    h: u64,
    passed: &mut [u8],
    stack: &mut [u16],
    starts: &mut [u16],
    cuts: &mut [u16],
    members: &mut [u16],
    lefts: &mut [u16],
) -> usize
    requires { Unwalked around.bounds.now around.arcs.now roots.now passed.old stack.old
        (lent starts.old cuts.old members.old lefts.old) }
    ensures { RootsWalked around.entry.bounds.now around.entry.arcs.now roots.now h
        passed.old passed.new stack.old stack.new
        (lent starts.old cuts.old members.old lefts.old)
        (lent starts.new cuts.new members.new lefts.new) result }
{
    cuts[0] = 0;
    let mut s = Progress {
        pieces: 0,
        used: 0,
        top: 0,
        weight: 0,
    };
    for (j, r) in roots.iter().enumerate() {
        let root = *r as usize;
        let left = walk_node(around, h, root, s, passed, stack, starts, cuts, members);
        lefts[j] = left.pieces as u16;
        s = put_piece(root, 0, 0, left, stack, starts, cuts, members);
    }
    s.pieces
}

// Splits the trees of the roots with threshold h. `bounds` and `arcs` hold the edges around each of n vertices of a
// forest, `Around` in the crate `edges`. The answer is the number of pieces: for each root the parts of its tree in the
// order in which they are split off, then what is left at the root.
// Piece i starts at starts[i], "the stop where the part was split off" or the root, and its edges are flat[cuts[i] ..
// cuts[i + 1]]. What is left at root j is piece lefts[j].
// Beyond what is used the arrays are as they came.
pub fn split_forest(
    n: usize,
    around: Around,
    roots: &[u16],
    h: u64,
    starts: &mut [u16],
    cuts: &mut [u16],
    members: &mut [u16],
    lefts: &mut [u16],
) -> usize
    requires { Splittable n around.bounds.now around.arcs.now roots.now (lent starts.old cuts.old members.old
        lefts.old) }
    ensures { ForestSplit n around.entry.bounds.now around.entry.arcs.now roots.now h
        (lent starts.old cuts.old members.old lefts.old)
        (lent starts.new cuts.new members.new lefts.new) result }
{
    let mut passed = [0u8; 256];
    let mut stack = [0u16; 256];
    split_roots(
        around,
        roots,
        h,
        &mut passed[..n],
        &mut stack[..n],
        starts,
        cuts,
        members,
        lefts,
    )
}

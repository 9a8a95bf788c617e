// The trees of an answer among the pieces that the splitting leaves, where each root's parts are followed by its
// leftover (document 01, step 7): the parts, and "the leftovers that have lines or have no part in their component".
ghost use Rattle.std.specs.Prelude.{◌≡◌, ◌+◌, ◌<◌, length};
ghost use Rattle.lists.specs.Put.{PutTo};
ghost use Rattle.unrooted_pieces.specs.TreePlaces.{tree_end, tree_places, PlacesAsked};

use edges::index::wide;
use pieces::pieces::put_run;

// Behind the last tree of a component: behind its leftover where this is a tree, and otherwise at it.
fn tree_end(first: usize, left: usize, cuts: &[u16]) -> usize
    requires { left + 1 < length cuts.now }
    ensures { result ≡ tree_end cuts.now first left }
{
    if first == left {
        return left + 1;
    }
    if cuts[left] == cuts[left + 1] {
        return left;
    }
    left + 1
}

// The numbers of the trees, rising, written to the front of the array. Says how many.
pub fn tree_places(lefts: &[u16], cuts: &[u16], out: &mut [u16]) -> usize
    requires { PlacesAsked lefts.now cuts.now out.old }
    ensures { PutTo 0 (tree_places cuts.now 0 lefts.now) out.old
        out.new result }
{
    let mut first = 0;
    let mut next = 0;
    for left in lefts {
        let left = wide(*left);
        next = put_run(first, tree_end(first, left, cuts), out, next);
        first = left + 1;
    }
    next
}

// The node walk and the child-list walk, which call each other: "at each child its own node comes first".
// Each call of the node walk passes a vertex that no call below it passes again, so that the walks nest at most as deep
// as the tree, two frames a level: the arcs of a vertex are gone through in a loop.
ghost use Rattle.std.specs.Prelude.{length};
ghost use Rattle.split.specs.SplitBelow.{passing};
ghost use Rattle.split.specs.ChildrenWalked.{state_of, Walkable, NodeWalked};

use bunches::Progress;
use bunches::bunch::{Bunch, settle};
use edges::arc::{arc_edge, arc_head, arc_weight};
use edges::around::Around;

// The node walk: v is passed, then its children are grown and split. What is left at v stands on the stack.
#[cycle(walk_children_walk_node)]
pub fn walk_node(
    around: Around,
    h: u64,
    v: usize,
    s: Progress,
    passed: &mut [u8],
    stack: &mut [u16],
    starts: &mut [u16],
    cuts: &mut [u16],
    members: &mut [u16],
) -> Progress
    requires { Walkable (length stack.old) around.bounds.now around.arcs.now v
        (state_of (passing v passed.old) stack.old starts.old cuts.old members.old s) }
    ensures { NodeWalked (length stack.old) around.entry.bounds.now around.entry.arcs.now h v
        (state_of (passing v passed.old) stack.old starts.old cuts.old
        members.old s)
        (state_of passed.new stack.new starts.new cuts.new members.new
        result) result.weight }
{
    passed[v] = 1;
    walk_children(around, h, v, s, passed, stack, starts, cuts, members)
}

// The child-list walk: the children of v, by their arcs. Each child's edge goes on the stack, then its own node is
// walked, then its piece meets the bunch of v, which stands on the stack below it.
#[cycle(walk_children_walk_node)]
fn walk_children(
    around: Around,
    h: u64,
    v: usize,
    s: Progress,
    passed: &mut [u8],
    stack: &mut [u16],
    starts: &mut [u16],
    cuts: &mut [u16],
    members: &mut [u16],
) -> Progress
    requires { Walkable (length stack.old) around.bounds.now around.arcs.now v
        (state_of passed.old stack.old starts.old cuts.old members.old s) }
    ensures { NodeWalked (length stack.old) around.entry.bounds.now around.entry.arcs.now h v
        (state_of passed.old stack.old starts.old cuts.old
        members.old s)
        (state_of passed.new stack.new starts.new cuts.new members.new
        result) result.weight }
{
    let base = s.top;
    let mut at = Progress {
        pieces: s.pieces,
        used: s.used,
        top: base,
        weight: 0,
    };
    let from = around.bounds[v] as usize;
    let to = around.bounds[v + 1] as usize;
    for arc in &around.arcs[from..to] {
        let head = arc_head(*arc);
        if passed[head] != 0 {
            continue;
        }
        let end = at.top;
        let bunch = Bunch {
            base,
            end,
            weight: at.weight,
        };
        stack[end] = arc_edge(*arc);
        at.top = end + 1;
        let mut piece = walk_node(around, h, head, at, passed, stack, starts, cuts, members);
        let own = arc_weight(*arc);
        piece.weight = own + piece.weight;
        at = settle(h, v, bunch, piece, stack, starts, cuts, members);
    }
    at
}

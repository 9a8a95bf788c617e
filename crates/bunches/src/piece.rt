// A piece, a part or what is left at a root, moves from the stack to the arrays that hold the pieces.
ghost use Rattle.std.specs.Prelude.{◌+◌, ◌≤◌, length};
ghost use Rattle.lists.specs.Put.{Put};
ghost use Rattle.bunches.specs.Store.{store_of};
ghost use Rattle.bunches.specs.PiecePut.{Puttable, PiecePut};

use crate::Progress;

// Copies edges behind those of the pieces. They are copied one by one, since the library for C is to need no `memmove`.
fn copy_edges(edges: &[u16], members: &mut [u16], used: usize)
    requires { used + length edges.now ≤ length members.old }
    ensures { Put used edges.now members.old members.new }
{
    for (i, edge) in edges.iter().enumerate() {
        members[used + i] = *edge;
    }
}

// What stands on the stack from a place on becomes a piece that starts at v; what is left on the stack weighs `weight`.
pub fn put_piece(
    v: usize,
    from: usize,
    weight: u64,
    s: Progress,
    stack: &[u16],
    starts: &mut [u16],
    cuts: &mut [u16],
    members: &mut [u16],
) -> Progress
    requires { Puttable v from stack.now (store_of starts.old cuts.old members.old s) s.top }
    ensures { PiecePut v from weight stack.now
        (store_of starts.old cuts.old members.old s)
        (store_of starts.new cuts.new members.new result) s result }
{
    let pieces = s.pieces;
    let used = s.used;
    let top = s.top;
    let next = used + (top - from);
    copy_edges(&stack[from..top], members, used);
    starts[pieces] = v as u16;
    cuts[pieces + 1] = next as u16;
    Progress {
        pieces: pieces + 1,
        used: next,
        top: from,
        weight,
    }
}

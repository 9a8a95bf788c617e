// Lists of edges held one after the other in one array: putting a list from a place on, and writing runs of numbers.
ghost use Rattle.std.specs.Prelude.{◌+◌, ◌-◌, ◌≤◌, length};
ghost use Rattle.lists.specs.Count.{below, from};
ghost use Rattle.lists.specs.Put.{PutTo};
ghost use Rattle.lists.specs.Sort.{rise};
ghost use Rattle.pieces.specs.Pieces.{RunAsked, NumbersAsked};

use order::order::rise_edges;

// Puts the edges into the array from a place on, from the smallest number to the largest. Says where they end.
pub fn put_risen(edges: &[u16], out: &mut [u16], at: usize) -> usize
    requires { at + length edges.now ≤ length out.old }
    ensures { PutTo at (rise edges.now) out.old out.new result }
{
    let end = at + edges.len();
    let part = &mut out[at..end];
    part.copy_from_slice(edges);
    rise_edges(part);
    end
}

// The numbers from one up to another, written from a place on. The answer is the place behind them.
pub fn put_run(first: usize, to: usize, out: &mut [u16], at: usize) -> usize
    requires { RunAsked first to at (length out.old) }
    ensures { PutTo at (from first (to - first)) out.old out.new result }
{
    let mut next = at;
    for c in first..to {
        out[next] = c as u16;
        next += 1;
    }
    next
}

// Writes the numbers 0 to k - 1 to the front of the array.
pub fn number_up(k: usize, out: &mut [u16])
    requires { NumbersAsked k (length out.old) }
    ensures { PutTo 0 (below k) out.old out.new k }
{
    put_run(0, k, out, 0);
}

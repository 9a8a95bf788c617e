// The edges of one tree of a filed cover, as numbers: its entries stand side by side.
ghost use Rattle.std.specs.Prelude.{◌-◌, ◌≤◌, length};
ghost use Rattle.lists.specs.Put.{PutTo};
ghost use Rattle.cover.specs.Runs.{run_edges, InEntries};
ghost use Rattle.closed_walk.specs.Run.{FirstOf};

use cover::read::{entries_in, entry_edge, entry_tree};

// The first entry that names no tree before j.
pub fn run_begin(c: &[u8], j: usize) -> usize
    ensures { FirstOf c.now j result }
{
    let q = entries_in(c);
    for i in 0..q {
        if j <= entry_tree(c, i) {
            return i;
        }
    }
    q
}

// The edges of a run of entries, written to the front of the array. Says how many.
pub fn read_run(c: &[u8], from: usize, to: usize, out: &mut [u16]) -> usize
    requires { InEntries c.now from to × (to - from ≤ length out.old) }
    ensures { PutTo 0 (run_edges c.now from to) out.old out.new result }
{
    for i in from..to {
        out[i - from] = entry_edge(c, i) as u16;
    }
    to - from
}

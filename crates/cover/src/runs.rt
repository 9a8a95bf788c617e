// Runs of entries: the entries of one tree stand side by side.
ghost use Rattle.std.specs.Prelude.{◌≤◌};
ghost use Rattle.rules.specs.CoverBytes.{entries_in};
ghost use Rattle.cover.specs.Runs.{RunOf};

use crate::read::{entries_in, entry_tree};

// Where the entries of tree j end that begin at an entry.
pub fn run_end(c: &[u8], j: usize, from: usize) -> usize
    requires { from ≤ entries_in c.now }
    ensures { RunOf c.now j from result }
{
    let q = entries_in(c);
    for i in from..q {
        if entry_tree(c, i) != j {
            return i;
        }
    }
    q
}

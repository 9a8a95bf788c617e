// The list of vans that a rooted question may bring beside the graph's bytes (document 02, A.5), its test, and where
// the crews start by it.
ghost use Rattle.std.specs.Prelude.{◌≡◌, ◌^◌, ◌≤◌, ◌<◌, length};
ghost use Rattle.lists.specs.Put.{PutTo};
ghost use Rattle.graph.specs.Bytes.{Reads};
ghost use Rattle.rules.specs.Questions.{roots_by, van_fault};
ghost use Rattle.admit.specs.Brought.{lent};
ghost use Rattle.admit.specs.Crews.{kind_of, root_at, RootsAsked, VansTested};
ghost use Rattle.admit.specs.Refusals.{fault_in};

use crate::crews::Kind;
use crate::refusal::Refusal;

// The vertex where crew j of a rooted question starts: the j-th of the list, or j where none is brought.
pub fn root_at(vans: Option<&[u8]>, j: usize) -> usize
    requires { j < 2 ^ 16 }
    ensures { Reads (root_at (lent vans.entry) j) (2 ^ 16) result }
{
    match vans {
        Some(list) => graph::u16_at(list, 2 * j),
        None => j,
    }
}

// Writes the vertices where k crews start to the front of the array.
pub fn put_roots(k: usize, vans: Option<&[u8]>, out: &mut [u16])
    requires { RootsAsked k (length out.old) }
    ensures { PutTo 0 (roots_by k (lent vans.entry)) out.old out.new k }
{
    for j in 0..k {
        out[j] = root_at(vans, j) as u16;
    }
}

// Says whether the list has two bytes for each of k crews, and names one of n vertices in each.
fn vans_right(vans: &[u8], k: usize, n: usize) -> bool
    requires { k ≤ 32 }
    ensures { VansTested k vans.now n result }
{
    if vans.len() != 2 * k {
        return false;
    }
    for j in 0..k {
        if n <= graph::u16_at(vans, 2 * j) {
            return false;
        }
    }
    true
}

// Tests the list of vans of at most 32 crews, on n vertices: 55. Without one there is nothing to test, and beside a
// question of crews without roots it is not read.
pub(crate) fn admit_vans(kind: Kind, k: usize, n: usize, vans: Option<&[u8]>) -> Result<(), Refusal>
    requires { k ≤ 32 }
    ensures { fault_in result ≡ van_fault (kind_of kind) k (lent vans.entry) n }
{
    match kind {
        Kind::Rooted => match vans {
            Some(list) => {
                if !vans_right(list, k, n) {
                    return Err(Refusal::Vans);
                }
                Ok(())
            }
            None => Ok(()),
        },
        Kind::Unrooted => Ok(()),
    }
}

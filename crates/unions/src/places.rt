// The places of the parts among the pieces that the splitting leaves, where each root's parts are followed by its
// leftover (document 01, step 4): every number that is not a leftover's.
ghost use Rattle.std.specs.Prelude.{◌≤◌, length};
ghost use Rattle.lists.specs.Put.{PutTo};
ghost use Rattle.unions.specs.Places.{places_between};

use edges::index::wide;
use pieces::pieces::put_run;

// The places of all parts, rising, by the numbers of the leftovers. Says how many parts there are.
pub fn part_places(lefts: &[u16], out: &mut [u16]) -> usize
    requires { length (places_between 0 lefts.now) ≤ length out.old }
    ensures { PutTo 0 (places_between 0 lefts.now) out.old out.new result }
{
    let mut first = 0;
    let mut next = 0;
    for left in lefts {
        let left = wide(*left);
        next = put_run(first, left, out, next);
        first = left + 1;
    }
    next
}

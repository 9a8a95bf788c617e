// An augmenting path from one part: the search for a free root, and the exchange along the path that it found.
//
// The parts reached stand in `parts`, in the order in which they were reached, with the root that each has in `via`.
// `from` has, for each root reached, the place in `parts` of the part that reached it.
ghost use Rattle.matching.specs.Input.{allowed_at};
ghost use Rattle.matching.specs.State.{Searchable, SearchEnded, Exchangeable, Exchanged};

use crate::input::allows;

// No part has the root; no part has reached it. Parts and places are below it. It is a number and no Option, so that the
// arrays stay half as long in bytes, and the definitions say of a root reached just the place that it was reached from.
pub const NONE: usize = 255;

// Searches from part i, by roots allowed to the parts reached and the parts that have those roots. The search ends at a
// root that no part has, or else with nothing left to search, and says how many parts it reached.
pub fn find(
    y: usize,
    i: usize,
    allowed: &[u8],
    owner: &[usize; 32],
    parts: &mut [usize; 33],
    via: &mut [usize; 33],
    from: &mut [usize; 32],
) -> Result<usize, usize>
    requires { Searchable y i allowed.now owner.now parts.old via.old from.old }
    ensures { SearchEnded y (allowed_at allowed.now y) i owner.now result parts.old
        parts.new
        via.old via.new from.old from.new }
{
    parts[0] = i;
    let mut t = 1;
    let mut at = 0;
    while at < t {
        for j in 0..y {
            if from[j] != NONE || !allows(y, allowed, parts[at], j) {
                continue;
            }
            from[j] = at;
            let k = owner[j];
            if k == NONE {
                return Ok(j);
            }
            parts[t] = k;
            via[t] = j;
            t += 1;
        }
        at += 1;
    }
    Err(t)
}

// Gives root j to the part that reached it, the root that this part had to the part that reached that one, and so on
// back to part i.
pub fn exchange(
    i: usize,
    j: usize,
    parts: &[usize; 33],
    via: &[usize; 33],
    from: &[usize; 32],
    owner: &mut [usize; 32],
    out: &mut [u8],
)
    requires { Exchangeable i j parts.now via.now from.now owner.old out.old }
    ensures { Exchanged i parts.now from.now out.old owner.new
        out.new }
{
    let mut root = j;
    let mut place = from[j];
    while place != 0 {
        let part = parts[place];
        out[part] = root as u8;
        owner[root] = part;
        root = via[place];
        place = from[root];
    }
    out[i] = root as u8;
    owner[root] = i;
}

// The set of parts that admits no assignment (document 01, step 5: "too low, parts T, yards D"): where its parts stand,
// and how many roots are allowed to some part of it. The marks are a byte for each of p parts, 1 in the set; the rows
// are k bytes for each part, 1 where a root is allowed.
ghost use Rattle.std.specs.Prelude.{◌≡◌, ◌&&◌, ◌*◌, ◌≤◌, length};
ghost use Rattle.lists.specs.Count.{any_below};
ghost use Rattle.matching.specs.Assignment.{marked, allowed_roots};
ghost use Rattle.matching.specs.Input.{allowed_at};
ghost use Rattle.unions.specs.Deficient.{ColumnGiven, PlacesWritten};

use crate::union::is_marked;

// The places of the parts of the set, in order, written to the front of the array. Says how many ("T").
pub fn marked_places(places: &[u16], marks: &[u8], out: &mut [u16]) -> usize
    requires { length places.now ≤ length out.old }
    ensures { PlacesWritten places.now marks.now out.old out.new result }
{
    let mut r = 0;
    for (i, place) in places.iter().enumerate() {
        if is_marked(marks, i) {
            out[r] = *place;
            r += 1;
        }
    }
    r
}

// Whether root j is allowed to some part of the set. The last part is looked at first: from the first on, a
// set of the last part alone would take as many turns as there are parts.
fn some_allows(rows: &[u8], marks: &[u8], p: usize, k: usize, j: usize) -> bool
    requires { ColumnGiven rows.now p k j }
    ensures { result ≡ any_below p (λ i. marked marks.now i && allowed_at rows.now k i j) }
{
    (0..p)
        .rev()
        .any(|i| is_marked(marks, i) && is_marked(rows, i * k + j))
}

// How many roots are allowed to some part of the set ("D").
pub fn count_allowed(rows: &[u8], marks: &[u8], p: usize, k: usize) -> usize
    requires { p * k ≤ length rows.now }
    ensures { result ≡ allowed_roots p k (allowed_at rows.now k) marks.now }
{
    let mut r = 0;
    for j in 0..k {
        if some_allows(rows, marks, p, k, j) {
            r += 1;
        }
    }
    r
}

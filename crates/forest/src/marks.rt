// Marked vertices.
ghost use Rattle.std.specs.Prelude.{◌≡◌, ◌↔◌, true, ◌≤◌, length};
ghost use Rattle.forest.specs.Marks.{AllMarked};

use graph::u16_within;

// Eight marks, each of them 1, as one word.
const EIGHT_MARKS: usize = 0x0101010101010101;

// Whether the first eight vertices are marked. The word has their bytes, lowest first: the compiler reads and compares it
// at once.
fn eight_marked(marks: &[u8]) -> bool
    requires { 8 ≤ length marks.now }
    ensures { (result ≡ true) ↔ AllMarked marks.now 8 }
{
    let low = u16_within(marks, 0) + 65536 * u16_within(marks, 2);
    let high = u16_within(marks, 4) + 65536 * u16_within(marks, 6);
    low + 4294967296 * high == EIGHT_MARKS
}

// Whether each of the n vertices is marked: its byte is 1. The bytes beyond are not read. Eight marks are taken as one
// word (document 02, A.2), the vertices beyond the last full word singly.
pub fn all_marked(marks: &[u8], n: usize) -> bool
    ensures { (result ≡ true) ↔ AllMarked marks.now n }
{
    if marks.len() < n {
        return false;
    }
    let eights = marks[..n].chunks_exact(8);
    let rest = eights.remainder();
    for eight in eights {
        if !eight_marked(eight) {
            return false;
        }
    }
    rest.iter().all(|mark| *mark == 1)
}

// The lowest vertex joined to no root, and the lowest vertex of each component.
ghost use Rattle.std.specs.Prelude.{◌≤◌, ◌<◌, length};
ghost use Rattle.forest.specs.Lowest.{Unjoined, LowestAsked, Components};

use edges::index::wide;

// The lowest of n vertices that is not joined to the root ("stop v"), if there is one.
pub fn lowest_unjoined(label: &[u16], n: usize, root: usize) -> Option<usize>
    requires { (root < n) × (n ≤ length label.now) }
    ensures { Unjoined label.now n root result }
{
    let root_label = label[root];
    label[..n].iter().position(|x| *x != root_label)
}

// The lowest vertex of each component, rising, written to the front of the array. Says how many components there are.
// A label is one of the n vertices: a vertex is the lowest of its component where its label has not been met before.
pub fn lowest_of_each(label: &[u16], n: usize, out: &mut [u16]) -> usize
    requires { LowestAsked label.now n out.old }
    ensures { Components label.now n out.old out.new result }
{
    let mut met = [false; 256];
    let mut r = 0;
    for (v, x) in label[..n].iter().enumerate() {
        let x = wide(*x);
        if met[x] {
            continue;
        }
        met[x] = true;
        out[r] = v as u16;
        r += 1;
    }
    r
}

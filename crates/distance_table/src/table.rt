// The distances of all vertices from all roots, and the last edges of the shortest paths (document 01, step 5). Both
// stand root by root: the distance and the last edge of vertex v for root j of n vertices at j * n + v.
ghost use Rattle.std.specs.Prelude.{◌<◌, length};
ghost use Rattle.distance_table.specs.Table.{FirstAt, TableAsked, TableFilled};

use distance::distances_from;
use edges::around::Around;
use edges::index::wide;

// The table, or the row of one root of it: the distances, and the last edges of the shortest paths.
#[derive(Clone, Copy)]
pub struct Table<'a> {
    pub distances: &'a [u32],
    pub lasts: &'a [u32],
}

// The first root at the same vertex as root j, which may be root j itself.
fn first_at(roots: &[u16], j: usize) -> usize
    requires { j < length roots.now }
    ensures { FirstAt roots.now j result }
{
    let root = roots[j];
    roots[..j].iter().position(|r| *r == root).unwrap_or(j)
}

// The distances from all roots, and their last edges: for each root its rows of both. Those of a vertex are searched
// once, and copied for every other root there.
pub fn fill_table(n: usize, around: Around, roots: &[u16], distances: &mut [u32], lasts: &mut [u32])
    requires { TableAsked n around.bounds.now around.arcs.now roots.now (length distances.old) (length lasts.old) }
    ensures { TableFilled n around.entry.bounds.now around.entry.arcs.now roots.now
        distances.old distances.new lasts.old lasts.new }
{
    for (j, root) in roots.iter().enumerate() {
        let first = first_at(roots, j);
        let from = j * n;
        if first < j {
            let earlier = first * n;
            distances.copy_within(earlier..earlier + n, from);
            lasts.copy_within(earlier..earlier + n, from);
        } else {
            let to = from + n;
            distances_from(
                n,
                around,
                wide(*root),
                &mut distances[from..to],
                &mut lasts[from..to],
            );
        }
    }
}

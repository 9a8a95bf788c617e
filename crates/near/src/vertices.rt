// The roots within the limit of each vertex, by the table of distances: that of vertex v from root j of n vertices
// stands at j * n + v. So one root's bit is added for all vertices side by side, from the last root to the first.
// Roots side by side that are at one vertex have the same distances: their bits are added at once.
ghost use Rattle.std.specs.Prelude.{◌-◌, ◌^◌, ◌<◌, ◌≤◌, cond, ◌≡◌, leb, ltb, length};
ghost use Rattle.near.specs.Vertices.{RootAsked, RootAdded, RunFound, RunAsked, RunAdded, NearAsked, NearVertices};

// These bits where the distance is at most the limit.
fn bits_within(distance: u32, limit: u32, bits: u32) -> u32
    ensures { result ≡ cond (leb distance limit) bits 0 }
{
    if distance <= limit { bits } else { 0 }
}

// One root more, by its row of distances: the bits of each vertex's word go up by one, and the first says whether this
// root is within the limit.
fn add_root(row: &[u32], limit: u32, near: &mut [u32])
    requires { RootAsked row.now near.old }
    ensures { RootAdded limit row.now near.old near.new }
{
    for (v, word) in near.iter_mut().enumerate() {
        *word = 2 * *word + bits_within(row[v], limit, 1);
    }
}

// Where the run of roots at one vertex begins that ends with root j.
fn run_start(roots: &[u16], j: usize) -> usize
    requires { j < length roots.now }
    ensures { RunFound roots.now j result }
{
    for i in (0..j).rev() {
        if roots[i] != roots[i + 1] {
            return i + 1;
        }
    }
    0
}

// How far the bits go up for r roots more. Words that get 32 have none yet, and stay as they are.
fn shift_for(r: usize) -> usize
    ensures { result ≡ cond (ltb r 32) r 0 }
{
    if r < 32 { r } else { 0 }
}

// The first r bits.
fn first_bits(r: usize) -> u32
    requires { r ≤ 32 }
    ensures { result ≡ 2 ^ r - 1 }
{
    ((1u64 << r) - 1) as u32
}

// A run of r roots more, which have one row of distances: the bits of each vertex's word go up by r, and the first r
// all say whether these roots are within the limit.
fn add_run(row: &[u32], r: usize, limit: u32, near: &mut [u32])
    requires { RunAsked r row.now near.old }
    ensures { RunAdded r limit row.now near.old near.new }
{
    let shift = shift_for(r);
    let bits = first_bits(r);
    for (v, word) in near.iter_mut().enumerate() {
        *word = (*word << shift) + bits_within(row[v], limit, bits);
    }
}

// The roots near each of as many vertices as there are words. The words come as zeros.
pub fn near_vertices(distances: &[u32], k: usize, limit: u32, near: &mut [u32], roots: &[u16])
    requires { NearAsked k distances.now near.old roots.now }
    ensures { NearVertices k limit distances.now near.old near.new }
{
    let n = near.len();
    let mut j = k;
    while 0 < j {
        let last = j - 1;
        let from = last * n;
        let to = from + n;
        let first = run_start(roots, last);
        if first < last {
            add_run(&distances[from..to], j - first, limit, near);
            j = first;
            continue;
        }
        add_root(&distances[from..to], limit, near);
        j = last;
    }
}

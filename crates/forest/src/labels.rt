// Labels of the vertices, in a lent array: two vertices are joined where their labels are equal.
ghost use Rattle.std.specs.Prelude.{◌≡◌, cond, ◌≤◌, ◌<◌, length, eqb};
ghost use Rattle.rules.specs.Labels.{together};
ghost use Rattle.forest.specs.Labelled.{Started, Merged};

// The label of v at the start: the first root's where v is a root, and its own otherwise.
fn first_label(roots: &[u16], v: usize) -> u16
    requires { v < 65536 }
    ensures { result ≡ together roots.now v }
{
    let own = v as u16;
    if roots.contains(&own) {
        return roots[0];
    }
    own
}

// The labels at the start: all roots ("yards") are joined, and every other vertex is apart. With no roots all are
// apart.
pub fn start_labels(roots: &[u16], n: usize, label: &mut [u16])
    requires { (n ≤ 65536) × (n ≤ length label.old) }
    ensures { Started roots.now n label.old label.new }
{
    for (v, x) in label[..n].iter_mut().enumerate() {
        *x = first_label(roots, v);
    }
}

// What becomes of a label when all that are `from` become `to`.
fn relabelled(x: u16, from: u16, to: u16) -> u16
    ensures { result ≡ cond (eqb x from) to x }
{
    if x == from { to } else { x }
}

// Joins u and v: each vertex with v's label takes u's.
pub fn merge_labels(label: &mut [u16], n: usize, u: usize, v: usize)
    requires { (u < n) × (v < n) × (n ≤ length label.old) }
    ensures { Merged n u v label.old label.new }
{
    let to = label[u];
    let from = label[v];
    for x in label[..n].iter_mut() {
        *x = relabelled(*x, from, to);
    }
}

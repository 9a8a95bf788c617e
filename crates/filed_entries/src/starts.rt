// The starts of a filed cover (32): as many as the crews may have, each where its crew begins, each a vertex.
ghost use Rattle.std.specs.Prelude.{◌≡◌};
ghost use Rattle.rules.specs.Cover.{rooted, unrooted};
ghost use Rattle.rules.specs.CheckCover.{starts_right, starts_below};
ghost use Rattle.rules.specs.Questions.{roots_by};
ghost use Rattle.admit.specs.Brought.{lent};

use admit::vans::root_at;
use cover::read::{start_in, trees_in};

// There are k trees, and tree j starts at its root, by the list of vans where one is brought.
pub fn starts_at_roots(c: &[u8], k: usize, vans: Option<&[u8]>) -> bool
    ensures { result ≡ starts_right (rooted (roots_by k (lent vans.entry))) c.now }
{
    let t = trees_in(c);
    if t != k {
        return false;
    }
    (0..t).all(|j| start_in(c, j) == root_at(vans, j))
}

// There are 1 to k trees.
pub fn starts_at_most(c: &[u8], k: usize) -> bool
    ensures { result ≡ starts_right (unrooted k) c.now }
{
    let t = trees_in(c);
    if t < 1 {
        return false;
    }
    t <= k
}

// Every start is below n.
pub fn starts_below(c: &[u8], n: usize) -> bool
    ensures { result ≡ starts_below n c.now }
{
    (0..trees_in(c)).all(|j| start_in(c, j) < n)
}

// The start of a search.
ghost use Rattle.distance.specs.Start.{Startable, Started};

use crate::UNREACHED;

// At the start the root alone is reached.
pub(crate) fn start(n: usize, root: usize, dist: &mut [u32])
    requires { Startable n root dist.old }
    ensures { Started n root dist.old dist.new }
{
    dist[..n].fill(UNREACHED);
    dist[root] = 0;
}

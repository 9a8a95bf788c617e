// The roots near each part, in one pass over the steps of the trees.
ghost use Rattle.near.specs.Parts.{NearPartsAsked, NearParts};

use steps::step::{step_above, step_child, step_weight};

// Splits the trees with threshold h, above 0, and writes for each part the roots that are near one of its vertices, by
// those near each vertex. Says how many parts there are. What is left at a vertex is kept by its weight and the roots
// near it alone.
pub fn near_parts(steps: &[u64], h: u64, near: &[u32], parts: &mut [u32]) -> usize
    requires { NearPartsAsked h steps.now near.now parts.old }
    ensures { NearParts h steps.now near.now parts.old parts.new result }
{
    let mut left = [0u64; 256];
    let mut beside = [0u32; 256];
    let mut r = 0;
    for step in steps {
        let child = step_child(*step);
        let above = step_above(*step);
        let piece = step_weight(*step) + left[child];
        let own = beside[child] | (near[child] | near[above]);
        if h <= piece {
            parts[r] = own;
            r += 1;
            continue;
        }
        let bunch = left[above] + piece;
        let both = beside[above] | own;
        if h <= bunch {
            parts[r] = both;
            r += 1;
            left[above] = 0;
            beside[above] = 0;
            continue;
        }
        left[above] = bunch;
        beside[above] = both;
    }
    r
}

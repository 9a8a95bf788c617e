// The number of parts at a threshold, in one pass over the steps of the trees.
ghost use Rattle.std.specs.Prelude.{◌≡◌};
ghost use Rattle.steps.specs.Touched.{parts_counted};
ghost use Rattle.steps.specs.StepsPut.{Countable};

use crate::step::{step_above, step_child, step_weight};

// The number of parts that the trees are split into with threshold h. What is left at a vertex is kept by its weight
// alone.
pub fn count_parts(steps: &[u64], h: u64) -> usize
    requires { Countable h steps.now }
    ensures { result ≡ parts_counted h steps.now }
{
    if h == 0 {
        return 0;
    }
    let mut left = [0u64; 256];
    let mut parts = 0;
    for step in steps {
        let piece = step_weight(*step) + left[step_child(*step)];
        if h <= piece {
            parts += 1;
            continue;
        }
        let above = step_above(*step);
        let bunch = left[above] + piece;
        if h <= bunch {
            parts += 1;
            left[above] = 0;
            continue;
        }
        left[above] = bunch;
    }
    parts
}

// The trees of a forest as a list of steps, written once, and the number of parts at a threshold in one pass over them.
// A step is a child, the vertex above it and the weight of the edge between, packed as an arc is, with the child in the
// edge's place.
// The words of the contracts stand in specs/.
#![tactic(auto)]

ghost use Rattle.steps.specs.StepsPut.{AllStepsReady, AllStepsAsked, AllStepsPut, TreesPut};

pub mod count;
pub mod step;
mod walk;

use edges::around::Around;
use walk::put_node;

// The steps of the roots' trees, one tree after the other; no vertex has a mark yet.
fn put_trees(around: Around, roots: &[u16], passed: &mut [u8], steps: &mut [u64]) -> usize
    requires { AllStepsReady around.bounds.now around.arcs.now roots.now passed.old steps.old }
    ensures { TreesPut around.entry.bounds.now around.entry.arcs.now roots.now passed.old
        passed.new
        steps.old steps.new result }
{
    let mut next = 0;
    for root in roots {
        next = put_node(around, *root as usize, next, passed, steps);
    }
    next
}

// Writes the steps of the roots' trees over n vertices of a forest, and says how many they are. `bounds` and `arcs`
// hold the edges around each vertex, as for `split_forest` of the crate `split`.
pub fn put_steps(n: usize, around: Around, roots: &[u16], steps: &mut [u64]) -> usize
    requires { AllStepsAsked n around.bounds.now around.arcs.now roots.now steps.old }
    ensures { AllStepsPut n around.entry.bounds.now around.entry.arcs.now roots.now steps.old
        steps.new result }
{
    let mut passed = [0u8; 256];
    put_trees(around, roots, &mut passed[..n], steps)
}

// The node walk and the child-list walk that write a tree's steps, which call each other: "at each child its own node
// comes first". Each call of the node walk passes a vertex that no call below it passes again, so that the walks nest
// at most as deep as the tree, two frames a level: the arcs of a vertex are gone through in a loop.
ghost use Rattle.split.specs.SplitBelow.{passing};
ghost use Rattle.steps.specs.StepsPut.{StepsAsked, StepsPut};

use crate::step::step_of;
use edges::arc::{arc_head, arc_weight};
use edges::around::Around;

// The node walk: v is passed, then the steps below it are written from the place `at` on. The answer is where they end.
#[cycle(put_children_put_node)]
pub fn put_node(around: Around, v: usize, at: usize, passed: &mut [u8], steps: &mut [u64]) -> usize
    requires { StepsAsked around.bounds.now around.arcs.now v at (passing v passed.old) steps.old }
    ensures { StepsPut around.entry.bounds.now around.entry.arcs.now v at
        (passing v passed.old) steps.old passed.new steps.new result }
{
    passed[v] = 1;
    put_children(around, v, at, passed, steps)
}

// The child-list walk: the children of v, by their arcs. At each child its own node is walked, then the child's step is
// written.
#[cycle(put_children_put_node)]
fn put_children(around: Around, v: usize, at: usize, passed: &mut [u8], steps: &mut [u64]) -> usize
    requires { StepsAsked around.bounds.now around.arcs.now v at passed.old steps.old }
    ensures { StepsPut around.entry.bounds.now around.entry.arcs.now v at
        passed.old steps.old passed.new steps.new result }
{
    let mut next = at;
    let from = around.bounds[v] as usize;
    let to = around.bounds[v + 1] as usize;
    for a in &around.arcs[from..to] {
        let head = arc_head(*a);
        if passed[head] != 0 {
            continue;
        }
        let end = put_node(around, head, next, passed, steps);
        steps[end] = step_of(head, v, arc_weight(*a));
        next = end + 1;
    }
    next
}

// Steps: a child, the vertex above it and the weight of the edge between, in one number, packed as an arc is.
ghost use Rattle.std.specs.Prelude.{◌≡◌, ◌<◌};
ghost use Rattle.steps.specs.Steps.{step_of, step_child, step_above, step_weight};

use edges::arc::{arc, arc_edge, arc_head, arc_weight};

// The step of a child, with the vertex above it and the weight of the edge between.
pub fn step_of(child: usize, above: usize, weight: u64) -> u64
    requires { (child < 65536) × (above < 65536) × (weight < 4294967296) }
    ensures { result ≡ step_of child above weight }
{
    arc(child, above, weight)
}

// The step's child.
pub fn step_child(step: u64) -> usize
    ensures { result ≡ step_child step }
{
    arc_edge(step) as usize
}

// The vertex above it.
pub fn step_above(step: u64) -> usize
    ensures { result ≡ step_above step }
{
    arc_head(step)
}

// The weight of the edge between them.
pub fn step_weight(step: u64) -> u64
    ensures { result ≡ step_weight step }
{
    arc_weight(step)
}

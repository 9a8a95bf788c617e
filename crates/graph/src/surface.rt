// Surfaces (document 02, A.3): the weight of an edge ("line") by its class byte, read from the caller's own list. An empty
// list stands for none.
ghost use Rattle.std.specs.Prelude.{◌≡◌, ◌^◌, ◌<◌};
ghost use Rattle.graph.specs.Surface.{percent_of, adjusted, class_at};
ghost use Rattle.graph.specs.Bytes.{Reads};

// The percentage of the weight that a class counts.
fn percent(class: u8) -> u64
    ensures { result ≡ percent_of class }
{
    match class {
        0..=9 => 100,
        10..=19 => 120,
        20..=39 => 150,
        40..=59 => 200,
        _ => 100,
    }
}

// The weight by a class, rounded up.
fn adjust(weight: u64, class: u8) -> u64
    requires { weight < 2 ^ 32 }
    ensures { Reads (adjusted weight class) (2 ^ 33) result }
{
    (weight * percent(class) + 99) / 100
}

// The weight of edge e by its class, past the list's end the weight as it is.
pub(crate) fn adjust_edge(weight: u64, classes: &[u8], e: usize) -> u64
    requires { weight < 2 ^ 32 }
    ensures { Reads (adjusted weight (class_at classes.now e)) (2 ^ 33) result }
{
    if classes.len() <= e {
        return weight;
    }
    adjust(weight, classes[e])
}

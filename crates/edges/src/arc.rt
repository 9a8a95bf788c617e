// Arcs: an edge's number, the vertex at its far end and its weight, in one number.
ghost use Rattle.std.specs.Prelude.{◌≡◌, ◌+◌, ◌*◌, ◌<◌};
ghost use Rattle.edges.specs.Around.{arc_edge, arc_head, arc_weight};

// The arc of an edge, with the vertex at its far end.
pub fn arc(edge: usize, head: usize, weight: u64) -> u64
    requires { (edge < 65536) × (head < 65536) × (weight < 4294967296) }
    ensures { result ≡ edge + 65536 * (head + 65536 * weight) }
{
    edge as u64 + 65536 * (head as u64 + 65536 * weight)
}

// The number of the arc's edge.
pub fn arc_edge(a: u64) -> u16
    ensures { result ≡ arc_edge a }
{
    (a % 65536) as u16
}

// The vertex that the arc leads to.
pub fn arc_head(a: u64) -> usize
    ensures { result ≡ arc_head a }
{
    (a / 65536 % 65536) as usize
}

// The weight of the arc's edge.
pub fn arc_weight(a: u64) -> u64
    ensures { result ≡ arc_weight a }
{
    a / 4294967296
}

// The last edge of a path, with the vertex before it, in one number.
ghost use Rattle.std.specs.Prelude.{◌≡◌, ◌<◌};
ghost use Rattle.waiting.specs.Last.{last_of, last_edge, vertex_before};

// The last edge and the vertex before it.
pub fn last_of(edge: u16, vertex: usize) -> u32
    requires { vertex < 65536 }
    ensures { result ≡ last_of edge vertex }
{
    edge as u32 + 65536 * vertex as u32
}

// The number of the edge.
pub fn last_edge(x: u32) -> u16
    ensures { result ≡ last_edge x }
{
    (x % 65536) as u16
}

// The vertex before the edge.
pub fn vertex_before(x: u32) -> usize
    ensures { result ≡ vertex_before x }
{
    (x / 65536) as usize
}

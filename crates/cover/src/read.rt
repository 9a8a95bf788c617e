// Readers of a cover's bytes. Every one is total: past the last byte there are zeros.
ghost use Rattle.std.specs.Prelude.{◌+◌, ◌*◌, ◌^◌, ◌<◌, ◌≤◌};
ghost use Rattle.graph.specs.Bytes.{Reads, u16_at};
ghost use Rattle.rules.specs.CoverBytes.{trees_in, entries_in, start_in, entry_tree, entry_edge, cover_length};

// How many trees the cover has.
pub fn trees_in(c: &[u8]) -> usize
    ensures { Reads (trees_in c.now) (2 ^ 16) result }
{
    graph::u16_at(c, 0)
}

// How many entries the cover has.
pub fn entries_in(c: &[u8]) -> usize
    ensures { Reads (entries_in c.now) (2 ^ 16) result }
{
    graph::u16_at(c, 2)
}

// The i-th field of two bytes from a place on.
fn field_from(c: &[u8], from: usize, i: usize) -> usize
    requires { (4 ≤ from) × (from < 2 ^ 32) }
    ensures { Reads (u16_at c.now (from + 2 * i)) (2 ^ 16) result }
{
    if c.len() / 2 <= i {
        return 0;
    }
    graph::u16_at(c, from + 2 * i)
}

// The start of tree j.
pub fn start_in(c: &[u8], j: usize) -> usize
    ensures { Reads (start_in c.now j) (2 ^ 16) result }
{
    field_from(c, 4, j)
}

// The tree of entry i.
pub fn entry_tree(c: &[u8], i: usize) -> usize
    ensures { Reads (entry_tree c.now i) (2 ^ 16) result }
{
    field_from(c, 4 + 2 * trees_in(c), i)
}

// The edge of entry i.
pub fn entry_edge(c: &[u8], i: usize) -> usize
    ensures { Reads (entry_edge c.now i) (2 ^ 16) result }
{
    field_from(c, 4 + 2 * trees_in(c) + 2 * entries_in(c), i)
}

// The length that the cover's counts ask for.
pub fn cover_length(c: &[u8]) -> usize
    ensures { Reads (cover_length c.now) (2 ^ 20) result }
{
    4 + 2 * trees_in(c) + 4 * entries_in(c)
}

// The vertices of a filed cover (35): each is the start of a tree, or an end of an entry's edge.
ghost use Rattle.std.specs.Prelude.{◌≡◌, ℕ, ◌<◌, length};
ghost use Rattle.graph.specs.Bytes.{graph_of};
ghost use Rattle.rules.specs.CoverBytes.{trees_in, entries_in, start_in, decode};
ghost use Rattle.rules.specs.CheckCover.{vertices_covered};
ghost use Rattle.forest.specs.Keeping.{Labelable};
ghost use Rattle.cover.specs.Runs.{CoverGiven};
ghost use Rattle.filed_entries.specs.Vertices.{StartsMarked, EndsMarked};

use cover::read::{entries_in, entry_edge, start_in, trees_in};
use forest::marks::all_marked;
use graph::Graph;

// Marks the starts of the trees.
fn mark_starts(c: &[u8], marks: &mut [u8])
    requires { (j : ℕ) → j < trees_in c.now → start_in c.now j < length marks.old }
    ensures { StartsMarked c.now (trees_in c.now) marks.old marks.new }
{
    for j in 0..trees_in(c) {
        marks[start_in(c, j)] = 1;
    }
}

// Marks both ends of each entry's edge.
fn mark_ends(g: &Graph, c: &[u8], marks: &mut [u8])
    requires { Labelable g.now marks.old }
    ensures { EndsMarked g.now c.now (entries_in
        c.now) marks.old marks.new }
{
    for i in 0..entries_in(c) {
        let e = entry_edge(c, i);
        let u = g.one_end(e);
        let v = g.other_end(e);
        marks[u] = 1;
        marks[v] = 1;
    }
}

// Says whether each vertex is covered.
pub fn vertices_covered(g: &Graph, c: &[u8]) -> bool
    requires { CoverGiven g.now c.now }
    ensures { result ≡ vertices_covered g.now (decode c.now) }
{
    let mut marks = [0u8; 256];
    mark_starts(c, &mut marks);
    mark_ends(g, c, &mut marks);
    all_marked(&marks, g.vertex_count())
}

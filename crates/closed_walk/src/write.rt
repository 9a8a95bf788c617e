// The stops of the walk along a tree, written as it is walked.
ghost use Rattle.std.specs.Prelude.{length};
ghost use Rattle.lists.specs.Put.{PutTo};
ghost use Rattle.graph.specs.Bytes.{graph_of};
ghost use Rattle.rules.specs.CoverBytes.{u16_list};
ghost use Rattle.closed_walk.specs.Turn.{tree_of, WriteAsked, walk_stops};

use crate::turn::take_turn;
use cover::write::put_u16;
use edges::around::{Around, put_around};
use edges::index::wide;
use graph::Graph;

// Writes the stops as the buffer's first bytes, two turns for each edge. The answer is how many bytes.
pub fn write_walk(g: &Graph, start: usize, edges: &[u16], buf: &mut [u8]) -> usize
    requires { WriteAsked g.now (tree_of start edges.now) (length buf.old) }
    ensures { PutTo 0 (u16_list (walk_stops g.now (tree_of start
        edges.now))) buf.old buf.new result }
{
    let mut bounds = [0u16; 257];
    let mut arcs = [0u64; 510];
    put_around(g, edges, &mut bounds, &mut arcs);
    let mut places = [0u16; 256];
    let mut marks = [0u8; 2048];
    let mut way = [0u16; 257];
    way[0] = start as u16;
    let mut depth = 0;
    let mut next = put_u16(buf, 0, start);
    for _turn in 0..2 * edges.len() {
        depth = take_turn(
            Around {
                bounds: &bounds,
                arcs: &arcs,
            },
            &mut places,
            &mut marks,
            &mut way,
            depth,
        );
        next = put_u16(buf, next, wide(way[depth]));
    }
    next
}

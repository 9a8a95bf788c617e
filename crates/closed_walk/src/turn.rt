// One turn of the walk along a tree, on arrays that say where it is: the arcs around each vertex over the tree's edges;
// for each vertex how many of its arcs are passed over, their edges being walked; a mark for each walked edge; and the
// stops on the way from the start to where the walk is. (The depth is the number of the last of these.)
ghost use Rattle.closed_walk.specs.Turn.{PlaceAsked, NextPlace, ArcsHeld, ArcsOf, TurnAsked, TurnTaken};

use edges::arc::{arc_edge, arc_head};
use edges::around::Around;
use edges::index::wide;

// The place of the first of the arcs, from a place on, whose edge is not marked; their number where there is none.
fn next_place(around: &[u64], marks: &[u8], from: usize) -> usize
    requires { PlaceAsked around.now marks.now from }
    ensures { NextPlace around.now marks.now from result }
{
    for i in from..around.len() {
        if marks[wide(arc_edge(around[i]))] != 1 {
            return i;
        }
    }
    around.len()
}

// The arcs around a vertex.
fn arcs_at<'a>(bounds: &[u16], arcs: &'a [u64], v: usize) -> &'a [u64]
    requires { ArcsHeld bounds.now arcs.now v }
    ensures { ArcsOf bounds.now arcs.now v result.now }
{
    let from = wide(bounds[v]);
    let to = wide(bounds[v + 1]);
    &arcs[from..to]
}

// The turn: on by the lowest edge not yet walked; where none is left, back by one stop. Says how deep the walk is then.
pub fn take_turn(
    around: Around,
    places: &mut [u16],
    marks: &mut [u8],
    way: &mut [u16],
    depth: usize,
) -> usize
    requires { TurnAsked around.bounds.now around.arcs.now places.old marks.old way.old depth }
    ensures { TurnTaken around.entry.bounds.now around.entry.arcs.now places.old places.new
        marks.old marks.new way.old way.new depth result }
{
    let stop = wide(way[depth]);
    let around = arcs_at(around.bounds, around.arcs, stop);
    let at = next_place(around, marks, wide(places[stop]));
    places[stop] = at as u16;
    if at < around.len() {
        let arc = around[at];
        marks[wide(arc_edge(arc))] = 1;
        way[depth + 1] = arc_head(arc) as u16;
        return depth + 1;
    }
    if depth == 0 {
        return 0;
    }
    depth - 1
}

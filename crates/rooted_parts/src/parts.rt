// The parts of a rooted trial, placed (document 01, steps 4 and 5): the forest's trees are split with the limit as
// threshold, the roots near each part are marked, and each part is given a root of its own; or else a set of parts is
// marked that has too few roots.
ghost use Rattle.graph.specs.Bytes.{graph_of};
ghost use Rattle.rooted_parts.specs.Near.{PartsNearPut};
ghost use Rattle.rooted_parts.specs.Parts.{PiecesAsked, PiecesPut, AssignAsked, AssignDone, WordsAsked, RowsAsked, RowsPlaced, PartsAsked, PartsPut};
ghost use Rattle.rooted_state.specs.Placed.{arrays_of, trial_arrays};

use crate::within::roots_within;
use cover::index::Pieces;
use edges::around::Around;
use graph::Graph;
use matching::{Answer, assign};
use near::held::near_pieces;
use near::rows::put_rows;
use split::split_forest;
use unions::places::part_places;

// How many parts there are, and whether each has a root of its own.
#[derive(Clone, Copy)]
pub struct Placed {
    pub parts: usize,
    pub assigned: bool,
}

// Splits the trees of the forest, and finds the places of the parts. Says how many.
fn place_pieces(
    g: &Graph,
    roots: &[u16],
    limit: u64,
    around: Around,
    starts: &mut [u16],
    cuts: &mut [u16],
    members: &mut [u16],
    lefts: &mut [u16],
    places: &mut [u16],
) -> usize
    requires { PiecesAsked g.now roots.now limit around.bounds.now around.arcs.now
        (arrays_of starts.old cuts.old members.old lefts.old places.old) }
    ensures { PiecesPut g.now roots.now limit
        (arrays_of starts.old cuts.old members.old lefts.old
        places.old)
        (arrays_of starts.new cuts.new members.new lefts.new
        places.new) result }
{
    let n = g.vertex_count();
    split_forest(n, around, roots, limit, starts, cuts, members, lefts);
    part_places(&lefts[..roots.len()], places)
}

// Gives each of p parts a root of its own, or else marks a deficient set. Says whether each has one.
pub fn assign_roots(p: usize, k: usize, rows: &[u8], assignment: &mut [u8]) -> bool
    requires { AssignAsked p k rows.now assignment.old }
    ensures { AssignDone p k rows.now assignment.old assignment.new result }
{
    let answer = assign(p, k, rows, assignment);
    match answer {
        Answer::Refused => false,
        Answer::Assigned => true,
        Answer::Deficient => false,
    }
}

// For each part a word, whose bit j says whether the part may go to root j.
fn pieces_near(
    g: &Graph,
    roots: &[u16],
    limit: u64,
    distances: &[u32],
    pieces: Pieces,
    places: &[u16],
    parts: usize,
    words: &mut [u32],
)
    requires { WordsAsked g.now roots.now limit distances.now pieces.starts.now pieces.cuts.now
        pieces.members.now places.now parts words.old }
    ensures { PartsNearPut g.now roots.now limit
        words.old words.new parts }
{
    let mut near = [0u32; 256];
    roots_within(g, roots, limit, distances, &mut near);
    near_pieces(g, &near, pieces, &places[..parts], words);
}

// Marks the roots near each part in its row, and gives each part a root of its own, or else marks a deficient set.
fn assign_parts(
    g: &Graph,
    roots: &[u16],
    limit: u64,
    distances: &[u32],
    pieces: Pieces,
    places: &[u16],
    parts: usize,
    rows: &mut [u8],
    assignment: &mut [u8],
) -> bool
    requires { RowsAsked g.now roots.now limit distances.now pieces.starts.now pieces.cuts.now
        pieces.members.now places.now parts rows.old assignment.old }
    ensures { RowsPlaced g.now roots.now limit parts
        rows.old rows.new assignment.old assignment.new result }
{
    let mut words = [0u32; 256];
    pieces_near(
        g, roots, limit, distances, pieces, places, parts, &mut words,
    );
    let k = roots.len();
    let size = parts * k;
    put_rows(&words[..parts], k, rows);
    assign_roots(parts, k, &rows[..size], assignment)
}

// The parts of a rooted trial where the edges within the limit join every vertex to a root, by the arcs of the whole
// forest and the distances from all roots.
pub fn place_parts(
    g: &Graph,
    roots: &[u16],
    limit: u64,
    around: Around,
    distances: &[u32],
    starts: &mut [u16],
    cuts: &mut [u16],
    members: &mut [u16],
    lefts: &mut [u16],
    places: &mut [u16],
    rows: &mut [u8],
    assignment: &mut [u8],
) -> Placed
    requires { PartsAsked g.now roots.now limit around.bounds.now around.arcs.now distances.now
        (arrays_of starts.old cuts.old members.old lefts.old places.old) rows.old assignment.old }
    ensures { PartsPut g.now roots.now limit
        (trial_arrays starts.old cuts.old members.old lefts.old
        places.old rows.old assignment.old)
        (trial_arrays starts.new cuts.new members.new lefts.new
        places.new rows.new assignment.new)
        result.parts result.assigned }
{
    let parts = place_pieces(
        g, roots, limit, around, starts, cuts, members, lefts, places,
    );
    let assigned = assign_parts(
        g,
        roots,
        limit,
        distances,
        Pieces {
            starts,
            cuts,
            members,
        },
        places,
        parts,
        rows,
        assignment,
    );
    Placed { parts, assigned }
}

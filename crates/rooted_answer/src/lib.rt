// The answer of a trial by crews with roots at a limit (document 01, a "yard" trial, steps 2 to 6), over what is
// prepared once a question. Its parts stand in the crate `rooted_parts`, its cover in `rooted_cover`, and those of a
// set without an assignment in `deficient`.
// The words of the contracts stand in specs/ and in the definitions of the crate `rules`.
#![tactic(auto)]

ghost use Rattle.std.specs.Prelude.{length};
ghost use Rattle.rules.specs.Cover.{rooted};
ghost use Rattle.replies.specs.Replies.{Answers};
ghost use Rattle.rooted_answer.specs.Answer.{RootedAnswerAsked, JoinedAsked, JoinedLent, JoinedReplied, JoinedFits, PlacedGiven, PlacedReplied};
ghost use Rattle.rooted_state.specs.Placed.{trial_arrays};

use cover::index::Pieces;
use deficient::reply_deficient;
use distance_table::table::Table;
use edges::around::Around;
use graph::Graph;
use pieces::whole::{light_forest, stop_at};
use replies::Reply;
use rooted_cover::cover_trees::write_rooted;
use rooted_parts::parts::{Placed, place_parts};

// The answer where the parts are placed: the cover where each has a root of its own, and otherwise a deficient set.
fn answer_placed(
    g: &Graph,
    roots: &[u16],
    limit: u64,
    order: &[u16],
    table: Table,
    pieces: Pieces,
    lefts: &[u16],
    places: &[u16],
    rows: &[u8],
    assignment: &[u8],
    placed: Placed,
    edges: &mut [u16],
    buf: &mut [u8],
) -> Reply
    requires { PlacedGiven g.now roots.now limit order.now table.distances.now table.lasts.now
        (trial_arrays pieces.starts.now pieces.cuts.now pieces.members.now lefts.now places.now rows.now assignment.now)
        placed.parts placed.assigned
        (length edges.old) (length buf.old) }
    ensures { PlacedReplied g.now roots.now limit
        edges.old edges.new buf.old buf.new result }
{
    let k = roots.len();
    if placed.assigned {
        let heaviest = write_rooted(
            g,
            order,
            table,
            roots,
            pieces,
            lefts,
            places,
            placed.parts,
            assignment,
            edges,
            buf,
        );
        return Reply::Cover(limit, heaviest, k);
    }
    reply_deficient(pieces, places, placed.parts, rows, assignment, k, buf)
}

// The answer where every vertex is joined to a root.
fn answer_parts(
    g: &Graph,
    roots: &[u16],
    limit: u64,
    order: &[u16],
    around: Around,
    table: Table,
    rows: &mut [u8],
    edges: &mut [u16],
    buf: &mut [u8],
) -> Reply
    requires { JoinedLent g.now roots.now limit order.now around.bounds.now around.arcs.now
        table.distances.now table.lasts.now rows.old (length edges.old) (length buf.old) }
    ensures { JoinedReplied g.now roots.now limit
        rows.old rows.new edges.old edges.new buf.old
        buf.new result }
{
    let mut starts = [0u16; 288];
    let mut cuts = [0u16; 289];
    let mut members = [0u16; 256];
    let mut lefts = [0u16; 32];
    let mut places = [0u16; 256];
    let mut assignment = [0u8; 256];
    let placed = place_parts(
        g,
        roots,
        limit,
        around,
        table.distances,
        &mut starts,
        &mut cuts,
        &mut members,
        &mut lefts,
        &mut places,
        rows,
        &mut assignment,
    );
    answer_placed(
        g,
        roots,
        limit,
        order,
        table,
        Pieces {
            starts: &starts,
            cuts: &cuts,
            members: &members,
        },
        &lefts,
        &places,
        rows,
        &assignment,
        placed,
        edges,
        buf,
    )
}

// Lends arrays of a length that has a place for each vertex and each root.
fn answer_sized<const LENGTH: usize>(
    g: &Graph,
    roots: &[u16],
    limit: u64,
    order: &[u16],
    around: Around,
    table: Table,
    buf: &mut [u8],
) -> Reply
    requires { JoinedFits g.now roots.now limit order.now around.bounds.now around.arcs.now
        table.distances.now table.lasts.now LENGTH (length buf.old) }
    ensures { Answers g.now (rooted roots.now) limit
        buf.old buf.new result }
{
    let mut rows = [0u8; LENGTH];
    let mut edges = [0u16; LENGTH];
    answer_parts(
        g, roots, limit, order, around, table, &mut rows, &mut edges, buf,
    )
}

// The answer at a limit. Its arrays are small where that is enough, since setting them to zero is much of what an
// answer about a small graph costs.
pub fn answer_rooted(
    g: &Graph,
    roots: &[u16],
    limit: u64,
    order: &[u16],
    kept: &[u16],
    around: Around,
    table: Table,
    buf: &mut [u8],
) -> Reply
    requires { RootedAnswerAsked g.now roots.now limit order.now kept.now around.bounds.now
        around.arcs.now table.distances.now table.lasts.now (length buf.old) }
    ensures { Answers g.now (rooted roots.now) limit
        buf.old buf.new result }
{
    let light = light_forest(g, kept, limit);
    let mut label = [0u16; 256];
    if let Some(v) = stop_at(g, roots, &kept[..light], &mut label) {
        return Reply::Stop(v);
    }
    if g.vertex_count() * roots.len() <= 512 {
        return answer_sized::<512>(g, roots, limit, order, around, table, buf);
    }
    answer_sized::<8192>(g, roots, limit, order, around, table, buf)
}

// The parts of a set that admits no assignment, written (document 01, step 5: "too low, parts T, yards D", the parts
// "ordered by smallest line"). The pieces stand as the splitting left them; those chosen are laid out again with their
// edges rising.
// The words of the contracts stand in specs/ and in the definitions of the crate `rules`.
#![tactic(auto)]

ghost use Rattle.std.specs.Prelude.{map, ◌≤◌, length};
ghost use Rattle.lists.specs.Put.{PutTo};
ghost use Rattle.rules.specs.CoverBytes.{encode};
ghost use Rattle.rules.specs.Held.{trees_at, risen};
ghost use Rattle.cover.specs.Chosen.{starts_at};
ghost use Rattle.rules.specs.RootedTrial.{by_smallest};
ghost use Rattle.deficient.specs.TooLowParts.{LayGiven, EdgesLaid, KeysGiven, KeysTaken, ChosenGiven, SetGiven, SetWritten, SetReplied};

use cover::index::{Pieces, edges_at, number_at};
use cover::write::write_cover;
use edges::index::wide;
use pieces::chosen::sort_chosen;
use pieces::pieces::{number_up, put_risen};
use replies::Reply;
use unions::deficient::{count_allowed, marked_places};

// How many parts the set has ("T"), and how many roots are allowed to them ("D").
#[derive(Clone, Copy)]
pub struct Deficient {
    pub parts: usize,
    pub roots: usize,
}

// The starts of the chosen pieces, written to the front of the array.
fn take_starts(starts: &[u16], chosen: &[u16], laid: &mut [u16])
    requires { length chosen.now ≤ length laid.old }
    ensures { PutTo 0 (starts_at starts.now chosen.now) laid.old
        laid.new (length chosen.now) }
{
    for (i, c) in chosen.iter().enumerate() {
        laid[i] = number_at(starts, wide(*c)) as u16;
    }
}

// The edges of the chosen pieces, each piece's rising, laid one piece after the other.
fn lay_edges(cuts: &[u16], members: &[u16], chosen: &[u16], bounds: &mut [u16], edges: &mut [u16])
    requires { LayGiven cuts.now members.now chosen.now (length bounds.old) (length edges.old) }
    ensures { EdgesLaid cuts.now members.now chosen.now bounds.old
        bounds.new edges.old edges.new }
{
    bounds[0] = 0;
    let mut at = 0;
    for (i, c) in chosen.iter().enumerate() {
        at = put_risen(edges_at(cuts, members, wide(*c)), edges, at);
        bounds[i + 1] = at as u16;
    }
}

// The key of each tree: its first edge, the smallest where they rise.
fn take_keys(bounds: &[u16], edges: &[u16], t: usize, keys: &mut [u32])
    requires { KeysGiven bounds.now edges.now t (length keys.old) }
    ensures { KeysTaken bounds.now edges.now t keys.old keys.new }
{
    for i in 0..t {
        keys[i] = number_at(edges_at(bounds, edges, i), 0) as u32;
    }
}

// The bytes of the chosen pieces, ordered by smallest edge, as the buffer's first bytes. Says how many bytes.
fn write_parts(pieces: Pieces, chosen: &[u16], buf: &mut [u8]) -> usize
    requires { ChosenGiven pieces.cuts.now pieces.members.now chosen.now (length buf.old) }
    ensures { PutTo 0 (encode (by_smallest (map risen (trees_at pieces.entry.starts.now pieces.entry.cuts.now
        pieces.entry.members.now chosen.now))))
        buf.old buf.new result }
{
    let mut laid = [0u16; 256];
    let mut bounds = [0u16; 257];
    let mut edges = [0u16; 256];
    let mut keys = [0u32; 256];
    let mut numbers = [0u16; 256];
    let t = chosen.len();
    take_starts(pieces.starts, chosen, &mut laid);
    lay_edges(pieces.cuts, pieces.members, chosen, &mut bounds, &mut edges);
    take_keys(&bounds, &edges, t, &mut keys);
    number_up(t, &mut numbers);
    sort_chosen(&keys, &mut numbers[..t]);
    let pieces = Pieces {
        starts: &laid,
        cuts: &bounds,
        members: &edges,
    };
    write_cover(buf, pieces, &numbers[..t])
}

// The parts of the set, written as the buffer's first bytes, with the numbers of the answer.
fn write_deficient(
    pieces: Pieces,
    places: &[u16],
    parts: usize,
    rows: &[u8],
    marks: &[u8],
    k: usize,
    buf: &mut [u8],
) -> Deficient
    requires { SetGiven pieces.cuts.now pieces.members.now places.now parts rows.now marks.now k (length buf.old) }
    ensures { SetWritten pieces.entry.starts.now pieces.entry.cuts.now pieces.entry.members.now places.now
        parts rows.now marks.now k
        buf.old buf.new result }
{
    let mut chosen = [0u16; 256];
    let t = marked_places(&places[..parts], &marks[..parts], &mut chosen);
    write_parts(pieces, &chosen[..t], buf);
    let d = count_allowed(rows, &marks[..parts], parts, k);
    Deficient { parts: t, roots: d }
}

// "Too low, parts T, yards D": the parts of the set are written.
pub fn reply_deficient(
    pieces: Pieces,
    places: &[u16],
    parts: usize,
    rows: &[u8],
    marks: &[u8],
    k: usize,
    buf: &mut [u8],
) -> Reply
    requires { SetGiven pieces.cuts.now pieces.members.now places.now parts rows.now marks.now k (length buf.old) }
    ensures { SetReplied pieces.entry.starts.now pieces.entry.cuts.now pieces.entry.members.now places.now
        parts rows.now marks.now k
        buf.old buf.new result }
{
    let d = write_deficient(pieces, places, parts, rows, marks, k, buf);
    Reply::Parts(d.parts, d.roots)
}

// Writing the bytes of chosen trees into the first bytes of a lent buffer. Everything behind them stays.
// Each function answers with the place behind what it wrote.
ghost use Rattle.std.specs.Prelude.{◌≡◌, ◌+◌, ◌*◌, ◌^◌, ◌≤◌, ◌<◌, length, replicate};
ghost use Rattle.lists.specs.Put.{PutTo};
ghost use Rattle.rules.specs.CoverBytes.{u16_bytes, u16_list, encode};
ghost use Rattle.rules.specs.Held.{trees_at};
ghost use Rattle.cover.specs.Chosen.{starts_at, edges_at, entry_count, tree_numbers, Writable, EdgesWritable};

use crate::index::{Pieces, edges_at, number_at, size_at};

// A field of two bytes, at a place.
pub fn put_u16(buf: &mut [u8], at: usize, x: usize) -> usize
    requires { at + 2 ≤ length buf.old }
    ensures { PutTo at (u16_bytes x) buf.old buf.new result }
{
    let field = (x % 65536) as u16;
    buf[at..at + 2].copy_from_slice(&field.to_le_bytes());
    at + 2
}

// The fields of a list, from a place on.
fn put_list(buf: &mut [u8], at: usize, xs: &[u16]) -> usize
    requires { at + 2 * length xs.now ≤ length buf.old }
    ensures { PutTo at (u16_list xs.now) buf.old buf.new result }
{
    let mut next = at;
    for x in xs {
        next = put_u16(buf, next, *x as usize);
    }
    next
}

// The same field so many times, from a place on.
fn put_same(buf: &mut [u8], at: usize, x: usize, count: usize) -> usize
    requires { at + 2 * count ≤ length buf.old }
    ensures { PutTo at (u16_list (replicate count x)) buf.old buf.new result }
{
    let mut next = at;
    for _ in 0..count {
        next = put_u16(buf, next, x);
    }
    next
}

// How many edges the chosen trees have together.
fn entry_count(bounds: &[u16], chosen: &[u16]) -> usize
    requires { entry_count bounds.now chosen.now < 2 ^ 64 }
    ensures { result ≡ entry_count bounds.now chosen.now }
{
    let mut sum = 0;
    for c in chosen {
        sum += size_at(bounds, *c as usize);
    }
    sum
}

// The starts of the chosen trees, from a place on.
fn put_starts(buf: &mut [u8], at: usize, starts: &[u16], chosen: &[u16]) -> usize
    requires { at + 2 * length chosen.now ≤ length buf.old }
    ensures { PutTo at (u16_list (starts_at starts.now chosen.now)) buf.old
        buf.new result }
{
    let mut next = at;
    for c in chosen {
        next = put_u16(buf, next, number_at(starts, *c as usize));
    }
    next
}

// The tree number of each of their entries, from a place on.
fn put_tree_numbers(buf: &mut [u8], at: usize, bounds: &[u16], chosen: &[u16]) -> usize
    requires { at + 2 * entry_count bounds.now chosen.now ≤ length buf.old }
    ensures { PutTo at (u16_list (tree_numbers 0 bounds.now chosen.now)) buf.old
        buf.new result }
{
    let mut next = at;
    for (j, c) in chosen.iter().enumerate() {
        next = put_same(buf, next, j, size_at(bounds, *c as usize));
    }
    next
}

// The edge of each of their entries, from a place on.
fn put_edges(buf: &mut [u8], at: usize, bounds: &[u16], edges: &[u16], chosen: &[u16]) -> usize
    requires { EdgesWritable bounds.now edges.now chosen.now at (length buf.old) }
    ensures { PutTo at (u16_list (edges_at bounds.now edges.now chosen.now))
        buf.old buf.new result }
{
    let mut next = at;
    for c in chosen {
        next = put_list(buf, next, edges_at(bounds, edges, *c as usize));
    }
    next
}

// The bytes of the cover whose trees are the chosen ones of those that the arrays hold, in the order in which they are
// chosen, as the buffer's first bytes. The answer is how many bytes.
pub fn write_cover(buf: &mut [u8], pieces: Pieces, chosen: &[u16]) -> usize
    requires { Writable pieces.starts.now pieces.cuts.now pieces.members.now chosen.now (length buf.old) }
    ensures { PutTo 0 (encode (trees_at pieces.entry.starts.now pieces.entry.cuts.now
        pieces.entry.members.now chosen.now)) buf.old buf.new result }
{
    let entries = entry_count(pieces.cuts, chosen);
    let behind_trees = put_u16(buf, 0, chosen.len());
    let behind_counts = put_u16(buf, behind_trees, entries);
    let behind_starts = put_starts(buf, behind_counts, pieces.starts, chosen);
    let behind_numbers = put_tree_numbers(buf, behind_starts, pieces.cuts, chosen);
    put_edges(buf, behind_numbers, pieces.cuts, pieces.members, chosen)
}

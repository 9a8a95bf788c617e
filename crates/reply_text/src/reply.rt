// The text of a reply, as the first bytes of a lent array.
ghost use Rattle.std.specs.Prelude.{◌+◌, ◌≤◌, [], ◌∷◌, ◌++◌, length};
ghost use Rattle.lists.specs.Put.{PutTo};
ghost use Rattle.graph.specs.Bytes.{graph_of};
ghost use Rattle.reply_text.specs.Lines.{bytes_of, spaced, line, ended};
ghost use Rattle.reply_text.specs.Replies.{TextAsked, TextWritten, cover_text, RefusalWritten};
ghost use Rattle.reply_text.specs.Trees.{TreesAsked};

use crate::lines::{put_last, put_line, put_spaced, put_word};
use crate::trees::put_trees;
use cover::read::cover_length;
use graph::Graph;
use replies::Reply;

// A line of a word and a number, at the front. A number has at most 20 digits.
fn write_line(word: &[u8], x: u64, out: &mut [u8]) -> usize
    requires { length word.now + 22 ≤ length out.old }
    ensures { PutTo 0 (word.now ++ ended (x ∷ [])) out.old out.new result }
{
    put_line(word, x, out, 0)
}

// `refused` number.
pub fn write_refused(number: u64, out: &mut [u8]) -> usize
    requires { 29 ≤ length out.old }
    ensures { RefusalWritten number out.old out.new result }
{
    write_line(b"refused", number, out)
}

// `too low parts` T `yards` D.
fn write_parts(parts: u64, roots: u64, out: &mut [u8]) -> usize
    requires { 62 ≤ length out.old }
    ensures { PutTo 0 (bytes_of "too low parts" ++ (spaced parts ++ line " yards" (roots ∷ [])))
        out.old out.new result }
{
    let behind_word = put_word(b"too low parts", out, 0);
    let behind_parts = put_spaced(parts, out, behind_word);
    put_line(b" yards", roots, out, behind_parts)
}

// `cover` limit heaviest t, at most 69 bytes, then the lines of the trees.
fn write_cover(g: &Graph, limit: u64, heaviest: u64, t: u64, c: &[u8], out: &mut [u8]) -> usize
    requires { TreesAsked g.now c.now 69 (length out.old) }
    ensures { PutTo 0 (cover_text g.now limit heaviest t
        c.now) out.old out.new result }
{
    let behind_word = put_word(b"cover", out, 0);
    let behind_limit = put_spaced(limit, out, behind_word);
    let behind_heaviest = put_spaced(heaviest, out, behind_limit);
    let behind_head = put_last(t, out, behind_heaviest);
    put_trees(g, c, out, behind_head)
}

// The text of a reply, as the first bytes of `out`. Says how many. A cover's trees are read from the buffer.
pub fn write_reply(g: &Graph, reply: Reply, buf: &[u8], out: &mut [u8]) -> usize
    requires { TextAsked g.now reply buf.now (length out.old) }
    ensures { TextWritten g.now reply buf.now
        out.old out.new result }
{
    match reply {
        Reply::Refused(f) => {
            return write_refused(admit::refusal::number(f) as u64, out);
        }
        Reply::Cover(limit, heaviest, t) => {
            let end = cover_length(buf);
            return write_cover(g, limit, heaviest, t as u64, &buf[..end], out);
        }
        Reply::Stop(v) => {
            return write_line(b"too low stop", v as u64, out);
        }
        Reply::Parts(parts, roots) => {
            return write_parts(parts as u64, roots as u64, out);
        }
        Reply::Needs(count) => {
            return write_line(b"too low needs", count, out);
        }
        Reply::NoCover => {
            return put_word(b"no cover\n", out, 0);
        }
    }
}

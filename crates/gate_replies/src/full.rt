// A reply in full, as bytes: its number, its values, what was written to the buffer, and whether the buffer is
// otherwise as it came.
ghost use Rattle.std.specs.Prelude.{◌≡◌, ◌+◌, ◌*◌, ◌≤◌, length, replicate};
ghost use Rattle.lists.specs.Put.{PutTo};
ghost use Rattle.replies.specs.Replies.{said, says};
ghost use Rattle.gate_replies.specs.Full.{head_of, announced_in, front_length, untouched, full_of, full_reply};

use crate::fields::{put_field, put_values};
use cover::read::cover_length;
use replies::{Reply, bit};
use reply_text::lines::put_word;

// What every byte of a lent buffer is before a question.
const FILL: u8 = 165;

// The longest buffer that two bytes name, filled. A program lends so much of it as a question asks for.
pub fn filled() -> [u8; 65536]
    ensures { result ≡ replicate 65536 165 }
{
    [FILL; 65536]
}

// Zeros: room for any text, and for any reply in full.
pub fn room() -> [u8; 65600]
    ensures { result ≡ replicate 65600 0 }
{
    [0; 65600]
}

// A number, how many values follow, and these.
fn put_head(number: u64, values: &[u64], out: &mut [u8]) -> usize
    requires { 4 + 8 * length values.now ≤ length out.old }
    ensures { PutTo 0 (head_of (said number values.now)) out.old out.new result }
{
    let behind_number = put_field(2, number, out, 0);
    let behind_count = put_field(2, values.len() as u64, out, behind_number);
    put_values(values, out, behind_count)
}

// Document 01's number and values of a reply, as the first bytes.
fn put_said(reply: Reply, out: &mut [u8]) -> usize
    requires { 28 ≤ length out.old }
    ensures { PutTo 0 (head_of (says reply)) out.old out.new result }
{
    match reply {
        Reply::Refused(f) => {
            return put_head(admit::refusal::number(f) as u64, &[], out);
        }
        Reply::Cover(limit, heaviest, t) => {
            return put_head(0, &[limit, heaviest, t as u64], out);
        }
        Reply::Stop(v) => {
            return put_head(1, &[v as u64], out);
        }
        Reply::Parts(parts, roots) => {
            return put_head(2, &[parts as u64, roots as u64], out);
        }
        Reply::Needs(count) => {
            return put_head(3, &[count], out);
        }
        Reply::NoCover => {
            return put_head(4, &[], out);
        }
    }
}

// How many bytes the first bytes of the buffer ask for, and no more than there are.
fn announced(buf: &[u8]) -> usize
    ensures { result ≡ announced_in buf.now }
{
    let end = cover_length(buf);
    if end < buf.len() {
        return end;
    }
    buf.len()
}

// How many bytes a reply wrote to the buffer's front.
fn front_length(reply: Reply, buf: &[u8]) -> usize
    ensures { result ≡ front_length reply buf.now }
{
    match reply {
        Reply::Cover(_, _, _) => announced(buf),
        Reply::Parts(_, _) => announced(buf),
        _ => 0,
    }
}

// Whether all bytes are as they came.
fn is_untouched(rest: &[u8]) -> bool
    ensures { result ≡ untouched rest.now }
{
    rest.iter().all(|x| *x == FILL)
}

// The reply in full, as the first bytes: what it says, the front of its buffer, which it wrote, and whether the rest of
// that is as it came.
fn write_front(reply: Reply, front: &[u8], rest: &[u8], out: &mut [u8]) -> usize
    requires { 33 + length front.now ≤ length out.old }
    ensures { PutTo 0 (full_of (says reply) front.now rest.now) out.old
        out.new result }
{
    let behind_said = put_said(reply, out);
    let behind_length = put_field(4, front.len() as u64, out, behind_said);
    let behind_front = put_word(front, out, behind_length);
    put_field(1, bit(is_untouched(rest)), out, behind_front)
}

// The reply in full, from the buffer that it was given with.
pub fn write_full(reply: Reply, buf: &[u8], out: &mut [u8]) -> usize
    requires { 33 + length buf.now ≤ length out.old }
    ensures { PutTo 0 (full_reply reply buf.now) out.old out.new result }
{
    let end = front_length(reply, buf);
    write_front(reply, &buf[..end], &buf[end..], out)
}

// The text of replies in which the rules leave a choice: only what they fix, and whether the check of a filed cover
// says yes to what was written.
ghost use Rattle.std.specs.Prelude.{◌≡◌, ◌+◌, ◌≤◌, length};
ghost use Rattle.lists.specs.Put.{PutTo};
ghost use Rattle.rules.specs.Questions.{graph_in};
ghost use Rattle.filed.specs.Promise.{says};
ghost use Rattle.reply_text.specs.Replies.{TextAsked};
ghost use Rattle.gate_replies.specs.Fixed.{is_yes, confirmed, yes_word, sure_line, FixedWritten};

use admit::question::Question;
use admit::refusal::Refusal;
use cover::read::cover_length;
use filed::check::check;
use replies::Reply;
use reply_text::lines::{put_last, put_spaced, put_word};
use reply_text::reply::write_reply;

// Whether the check's answer is yes, with this weight.
fn is_yes(verdict: Result<u64, Refusal>, heaviest: u64) -> bool
    ensures { result ≡ is_yes (says verdict) heaviest }
{
    match verdict {
        Ok(weight) => weight == heaviest,
        Err(_) => false,
    }
}

// Whether the check says yes to the bytes of a cover, with this weight.
fn confirms(question: &Question, c: &[u8], heaviest: u64) -> bool
    ensures { result ≡ confirmed question.now c.now heaviest }
{
    is_yes(check(question, c), heaviest)
}

// A space and `yes` or `no`, from a place on.
fn put_yes(sure: bool, out: &mut [u8], at: usize) -> usize
    requires { at + length (yes_word sure) ≤ length out.old }
    ensures { PutTo at (yes_word sure) out.old out.new result }
{
    if sure {
        return put_word(b" yes", out, at);
    }
    put_word(b" no", out, at)
}

// `cover` limit, `yes` or `no`, t. Two numbers of at most 20 digits.
fn write_sure(limit: u64, sure: bool, t: u64, out: &mut [u8]) -> usize
    requires { 52 ≤ length out.old }
    ensures { PutTo 0 (sure_line limit sure t) out.old out.new result }
{
    let behind_word = put_word(b"cover", out, 0);
    let behind_limit = put_spaced(limit, out, behind_word);
    let behind_yes = put_yes(sure, out, behind_limit);
    put_last(t, out, behind_yes)
}

// What the rules fix of a reply, as the first bytes of `out`. Says how many.
pub fn write_fixed(question: &Question, reply: Reply, buf: &[u8], out: &mut [u8]) -> usize
    requires { TextAsked (graph_in question.now) reply buf.now (length out.old) }
    ensures { FixedWritten question.now reply buf.now out.old out.new result }
{
    match reply {
        Reply::Cover(limit, heaviest, t) => {
            let end = cover_length(buf);
            let sure = confirms(question, &buf[..end], heaviest);
            return write_sure(limit, sure, t as u64, out);
        }
        Reply::Parts(_, _) => {
            return put_word(b"too low parts\n", out, 0);
        }
        _ => {
            return write_reply(&question.graph(), reply, buf, out);
        }
    }
}

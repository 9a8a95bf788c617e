// What is printed of a reply, and of the check's answer.
ghost use Rattle.std.specs.Prelude.{◌≤◌, length};
ghost use Rattle.lists.specs.Put.{PutTo};
ghost use Rattle.rules.specs.Questions.{graph_in};
ghost use Rattle.filed.specs.Promise.{says};
ghost use Rattle.reply_text.specs.Replies.{TextAsked};
ghost use Rattle.districts.specs.Text.{DistrictWritten, known_text, verdict_text};

use admit::question::Question;
use admit::refusal::Refusal;
use gate_replies::fixed::write_fixed;
use replies::{Reply, bit};
use reply_text::lines::{put_last, put_line, put_spaced, put_word};
use reply_text::reply::{write_refused, write_reply};

// The whole text of a reply, or what the rules fix of it, as the first bytes of `out`. Says how many.
pub(crate) fn write_text(
    whole: bool,
    question: &Question,
    reply: Reply,
    buf: &[u8],
    out: &mut [u8],
) -> usize
    requires { TextAsked (graph_in question.now) reply buf.now (length out.old) }
    ensures { DistrictWritten whole question.now reply buf.now out.old out.new result }
{
    if whole {
        return write_reply(&question.graph(), reply, buf, out);
    }
    write_fixed(question, reply, buf, out)
}

// `known` trials floor, and 1 where they are spent, 0 where not, as the first bytes of `out`. Says how many.
pub(crate) fn write_known(trials: u64, floor: u64, spent: bool, out: &mut [u8]) -> usize
    requires { 70 ≤ length out.old }
    ensures { PutTo 0 (known_text trials floor spent) out.old out.new result }
{
    let behind_word = put_word(b"known", out, 0);
    let behind_trials = put_spaced(trials, out, behind_word);
    let behind_floor = put_spaced(floor, out, behind_trials);
    put_last(bit(spent), out, behind_floor)
}

// The check's answer, as the first bytes of `out`. Says how many.
pub(crate) fn write_verdict(verdict: Result<u64, Refusal>, out: &mut [u8]) -> usize
    requires { 29 ≤ length out.old }
    ensures { PutTo 0 (verdict_text (says verdict)) out.old out.new result }
{
    match verdict {
        Ok(heaviest) => put_line(b"yes", heaviest, out, 0),
        Err(f) => write_refused(admit::refusal::number(f) as u64, out),
    }
}

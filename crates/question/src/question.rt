// The question's fields, the reply to it, and the reply's text.
ghost use Rattle.std.specs.Prelude.{◌≡◌, length};
ghost use Rattle.rules.specs.Questions.{question, unknown as unknownIn, kind_in, is_trial};
ghost use Rattle.question.specs.Question.{KnownAnswered, TextAnsweredIn, TextRoom, AnswerPromise};

use admit::crews::Kind;
use admit::refusal::LEAST_ROOM;
use graph::Graph;
use planner::question::{best, trial};
use replies::Reply;
use reply_text::reply::{write_refused, write_reply};

// Whether the input is too short or too long, or the question unknown (41).
fn unknown(input: &[u8]) -> bool
    ensures { result ≡ unknownIn input.now }
{
    if input.len() < 8 || 16396 < input.len() {
        return true;
    }
    let asked = graph::u16_at(input, 0);
    asked < 1 || 4 < asked
}

// The reply to a known question on a graph's bytes: 1 rooted trial, 2 unrooted trial, 3 rooted best, 4 unrooted best.
fn reply_to(asked: usize, k: usize, limit: u64, b: &[u8], buf: &mut [u8]) -> Reply
    ensures { KnownAnswered (is_trial asked) (question (kind_in asked) k b.now) limit buf.old
        buf.new result }
{
    match asked {
        1 => trial(Kind::Rooted, k, limit, b, buf),
        2 => trial(Kind::Unrooted, k, limit, b, buf),
        3 => best(Kind::Rooted, k, b, buf),
        _ => best(Kind::Unrooted, k, b, buf),
    }
}

// The text of the answer, with a buffer for the cover.
fn answer_in(input: &[u8], buf: &mut [u8], out: &mut [u8]) -> usize
    requires { TextRoom (length buf.old) (length out.old) }
    ensures { TextAnsweredIn input.now buf.old buf.new out.old
        out.new result }
{
    if unknown(input) {
        return write_refused(41, out);
    }
    let asked = graph::u16_at(input, 0);
    let k = graph::u16_at(input, 2);
    let limit = graph::u32_at(input, 4);
    let b = &input[8..];
    let reply = reply_to(asked, k, limit, b, buf);
    write_reply(&Graph::new(b, &[]), reply, buf, out)
}

// All that the program does: the text of the answer, as the first bytes of `out`. Says how many. Where `out` is too
// small for any text, below 65,536 bytes, it is left as it came, and 0 is said.
pub fn answer(input: &[u8], out: &mut [u8]) -> usize
    ensures { AnswerPromise input.now out.old out.new result }
{
    if out.len() < 65536 {
        return 0;
    }
    let mut buf = [0u8; LEAST_ROOM];
    answer_in(input, &mut buf, out)
}

// What crosses to C as numbers: the kind of a question, what it asks and which lists it brings, and what a reply, a
// verdict and a walk say.
ghost use Rattle.std.specs.Prelude.{◌≤◌, ◌≡◌, length};
ghost use Rattle.replies.specs.Replies.{says};
ghost use Rattle.closed_walk.specs.Promise as walks;
ghost use Rattle.planner_c.specs.Numbers.{kind_of, asked_of, lists_of, asks_with, says_told, saying_of, Puts};

use admit::crews::Kind;
use admit::question::Question;
use admit::refusal::{MOST_TRIALS, Refusal};
use asking::ask::Asked;
use closed_walk::walk::Walked;
use replies::{Reply, Told, bit, number_of};

// The kind that a number names: 0 rooted, every other unrooted.
pub(crate) fn kind_of(kind: u32) -> Kind
    ensures { result ≡ kind_of kind }
{
    match kind {
        0 => Kind::Rooted,
        _ => Kind::Unrooted,
    }
}

// What two numbers ask: 0 a trial at the limit, every other the best limit, for which all trials are made.
pub(crate) fn asked_of(asked: u32, limit: u64) -> Asked
    ensures { result ≡ asked_of asked limit }
{
    match asked {
        0 => Asked::At(limit),
        _ => Asked::Within(MOST_TRIALS),
    }
}

// The question that is brought as numbers and bytes. A number names the lists, a bit for each: 1 the class bytes, 2 the
// vans. One that it does not name is not read.
pub(crate) fn question_of<'a>(
    kind: u32,
    k: usize,
    graph: &'a [u8],
    brought: u32,
    classes: &'a [u8],
    vans: &'a [u8],
) -> Question<'a>
    ensures { result ≡ asks_with (kind_of kind) k graph.now (lists_of brought) classes.now vans.now }
{
    let plain = Question::new(kind_of(kind), k, graph);
    let surfaces = (brought % 2 == 1).then_some(classes);
    let starts = (brought / 2 % 2 == 1).then_some(vans);
    plain.with_lists(surfaces, starts)
}

// Writes the values of a reply's case, from the first on.
pub(crate) fn put_values(reply: Reply, values: &mut [u64])
    requires { 3 ≤ length values.old }
    ensures { Puts (says reply) values.old values.new }
{
    match reply {
        Reply::Cover(limit, heaviest, t) => {
            values[0] = limit;
            values[1] = heaviest;
            values[2] = t as u64;
        }
        Reply::Stop(v) => {
            values[0] = v as u64;
        }
        Reply::Parts(parts, roots) => {
            values[0] = parts as u64;
            values[1] = roots as u64;
        }
        Reply::Needs(trees) => {
            values[0] = trees;
        }
        _ => {}
    }
}

// Writes the values of a reply's case, and behind a cover's what is known besides.
pub(crate) fn put_told(told: Told, values: &mut [u64])
    requires { length values.old ≡ 6 }
    ensures { Puts (says_told told) values.old values.new }
{
    let reply = told.reply;
    match reply {
        Reply::Cover(_, _, _) => {
            values[3] = told.known.trials as u64;
            values[4] = told.known.floor;
            values[5] = bit(told.known.spent);
            put_values(reply, values);
        }
        _ => put_values(reply, values),
    }
}

// The number of a reply, or 5 where the trials are spent: so nobody takes it for the best limit.
pub(crate) fn number_told(told: Told) -> u32
    ensures { result ≡ (says_told told).number }
{
    if told.known.spent {
        return 5;
    }
    let reply = told.reply;
    number_of(reply)
}

// Writes the heaviest weight as the first value, where the verdict is yes.
pub(crate) fn put_heaviest(verdict: Result<u64, Refusal>, values: &mut [u64])
    requires { length values.old ≡ 3 }
    ensures { Puts (saying_of verdict) values.old values.new }
{
    if let Ok(heaviest) = verdict {
        values[0] = heaviest;
    }
}

// Writes the count of stops and the length, where there is a walk.
pub(crate) fn put_walk(walked: Result<Walked, Refusal>, values: &mut [u64])
    requires { length values.old ≡ 2 }
    ensures { Puts (walks.says walked) values.old values.new }
{
    if let Ok(walk) = walked {
        values[0] = walk.stops as u64;
        values[1] = walk.length;
    }
}

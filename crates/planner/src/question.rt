// The questions that a user asks, on any input: refused in document 01's order ("Who causes which number"), and
// otherwise answered.
ghost use Rattle.std.specs.Prelude.{◌≡◌};
ghost use Rattle.admit.specs.Crews.{asks};
ghost use Rattle.admit.specs.Refusals.{fault_in};
ghost use Rattle.planner.specs.Promise.{LimitTested, TrialsTested, fault_of, TrialPromise, BestPromise, AskPromise};

use admit::crews::Kind;
use admit::question::Question;
use admit::refusal::{LEAST_ROOM, MOST_LIMIT, MOST_TRIALS, Refusal};
use asking::ask::{Asked, ask_crews};
use replies::{Reply, Told, UNTRIED};

// Whether the limit, where one is given, is not too large.
fn limit_right(asked: Asked) -> bool
    ensures { LimitTested asked result }
{
    match asked {
        Asked::At(limit) => limit <= MOST_LIMIT,
        Asked::Within(_) => true,
    }
}

// Whether the number of trials, where one is given, is neither too small nor too large.
fn trials_right(asked: Asked) -> bool
    ensures { TrialsTested asked result }
{
    match asked {
        Asked::At(_) => true,
        Asked::Within(trials) => 2 <= trials && trials <= MOST_TRIALS,
    }
}

// Tests the question, with so much room for what is written. The asking stands apart: so the arrays of an answer are in
// no frame of these, and a refusal takes next to no stack.
fn test(asked: Asked, question: &Question, room: usize) -> Result<(), Refusal>
    ensures { fault_in result ≡ fault_of asked question.now room }
{
    admit::admit(question)?;
    if !limit_right(asked) {
        return Err(Refusal::Limit);
    }
    if room < LEAST_ROOM {
        return Err(Refusal::Room);
    }
    if !trials_right(asked) {
        return Err(Refusal::Trials);
    }
    Ok(())
}

// Either question, with the lists that are brought: a trial at a limit, or the search for the best limit with at most so
// many trials (document 02, A.6).
pub fn ask(asked: Asked, question: &Question, buf: &mut [u8]) -> Told
    ensures { AskPromise asked question.now buf.old buf.new result }
{
    match test(asked, question, buf.len()) {
        Err(f) => Told {
            reply: Reply::Refused(f),
            known: UNTRIED,
        },
        Ok(()) => ask_crews(question, asked, buf),
    }
}

// "A trial at limit B", without lists: a cover within four times the limit, or why every cover is above it.
pub fn trial(kind: Kind, k: usize, limit: u64, b: &[u8], buf: &mut [u8]) -> Reply
    ensures { TrialPromise (asks kind k b.now) limit buf.old buf.new result }
{
    let question = Question::new(kind, k, b);
    let told = ask(Asked::At(limit), &question, buf);
    let reply = told.reply;
    reply
}

// "The best limit", without lists: a cover whose heaviest tree weighs at most four times that of any cover's, or that
// there is none. It is the search with as many trials as may be asked for, which are never spent.
pub fn best(kind: Kind, k: usize, b: &[u8], buf: &mut [u8]) -> Reply
    ensures { BestPromise (asks kind k b.now) buf.old buf.new result }
{
    let question = Question::new(kind, k, b);
    let told = ask(Asked::Within(MOST_TRIALS), &question, buf);
    let reply = told.reply;
    reply
}

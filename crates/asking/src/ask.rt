// A question about a graph, prepared once and answered: a trial at a limit, or the search for the best limit.
ghost use Rattle.std.specs.Prelude.{length};
ghost use Rattle.rules.specs.Questions.{graph_in, crews_in};
ghost use Rattle.asking.specs.declared.ask.Asked.TheVariants.{Within};
ghost use Rattle.prepare.specs.Crews.{the_crews};
ghost use Rattle.asking.specs.Asking.{Answered, AskedReady, SearchReady, CrewsAsked};

use crate::ask_rooted::ask_rooted;
use crate::ask_unrooted::ask_unrooted;
use admit::crews::Kind;
use admit::question::Question;
use admit::vans::put_roots;
use answers::{answer_at, no_cover};
use graph::Graph;
use prepare::crews::Prepared;
use replies::{Reply, Told, UNTRIED};
use search::limit::find_limit;

// What is asked.
#[derive(Clone, Copy)]
pub enum Asked {
    // A trial at a limit.
    At(u64),
    // The search for the best limit, with at most so many trials.
    Within(usize),
}

// The answer at the limit that is found with at most so many trials, or that no cover exists, which is known before any.
fn answer_within(g: &Graph, prepared: Prepared, trials: usize, buf: &mut [u8]) -> Told
    requires { SearchReady g.now prepared trials (length buf.old) }
    ensures { Answered (Within trials) g.now (the_crews prepared.entry.crews)
        buf.old buf.new result }
{
    if no_cover(g, prepared) {
        return Told {
            reply: Reply::NoCover,
            known: UNTRIED,
        };
    }
    let found = find_limit(g, prepared, trials);
    let reply = answer_at(g, prepared, found.high, buf);
    let known = found.known;
    Told {
        reply: reply,
        known: known,
    }
}

// The answer, over everything that was prepared.
pub(crate) fn answer_asked(g: &Graph, prepared: Prepared, asked: Asked, buf: &mut [u8]) -> Told
    requires { AskedReady g.now prepared asked (length buf.old) }
    ensures { Answered asked g.now (the_crews prepared.entry.crews)
        buf.old buf.new result }
{
    match asked {
        Asked::At(limit) => {
            let reply = answer_at(g, prepared, limit, buf);
            Told {
                reply: reply,
                known: UNTRIED,
            }
        }
        Asked::Within(trials) => answer_within(g, prepared, trials, buf),
    }
}

// The answer to a question: by crews with roots, by the list of vans or 0 to k - 1 where none is brought, or without.
// Nothing below knows of such a list.
#[inline(never)]
pub fn ask_crews(question: &Question, asked: Asked, buf: &mut [u8]) -> Told
    requires { CrewsAsked (graph_in question.now) (crews_in question.now) asked (length buf.old) }
    ensures { Answered asked (graph_in question.now) (crews_in question.now) buf.old buf.new
        result }
{
    let g = question.graph();
    let k = question.k();
    match question.kind() {
        Kind::Rooted => {
            let mut roots = [0u16; 32];
            put_roots(k, question.vans(), &mut roots);
            ask_rooted(&g, &roots[..k], asked, buf)
        }
        Kind::Unrooted => ask_unrooted(k, &g, asked, buf),
    }
}

// Whether there is no cover at all, and the answer at a limit, by crews of either kind.
#![tactic(auto)]

ghost use Rattle.std.specs.Prelude.{◌≡◌, length};
ghost use Rattle.rules.specs.Search.{no_cover_exists};
ghost use Rattle.replies.specs.Replies.{Answers};
ghost use Rattle.prepare.specs.Crews.{the_crews};
ghost use Rattle.answers.specs.Answers.{ForestReady, LimitAsked};

use graph::Graph;
use prepare::crews::{Crews, Prepared};
use replies::Reply;
use rooted_answer::answer_rooted;
use rooted_decide::no_cover_rooted;
use unrooted::answer::{answer_unrooted, no_cover_unrooted};

// Whether no cover by the crews exists at all.
pub fn no_cover(g: &Graph, prepared: Prepared) -> bool
    requires { ForestReady g.now prepared.kept.now prepared.crews }
    ensures { result ≡ no_cover_exists g.now (the_crews prepared.entry.crews) }
{
    match prepared.crews {
        Crews::Rooted { roots, .. } => no_cover_rooted(g, roots, prepared.kept),
        Crews::Unrooted { k, .. } => no_cover_unrooted(g, k, prepared.kept),
    }
}

// The answer of the crews' trial at the limit.
pub fn answer_at(g: &Graph, prepared: Prepared, limit: u64, buf: &mut [u8]) -> Reply
    requires { LimitAsked g.now prepared limit (length buf.old) }
    ensures { Answers g.now (the_crews prepared.entry.crews) limit buf.old buf.new result }
{
    let Prepared { order, kept, crews } = prepared;
    match crews {
        Crews::Rooted {
            roots,
            around,
            table,
        } => answer_rooted(g, roots, limit, order, kept, around, table, buf),
        Crews::Unrooted { k, merges } => answer_unrooted(g, k, limit, kept, merges, buf),
    }
}

// The answer of a trial by crews without roots (document 01, a "roving" trial, step 7), and the decisions that the best
// limit asks: all from the whole forest and the history of its merges, which are prepared once a question.
ghost use Rattle.std.specs.Prelude.{◌≡◌, length};
ghost use Rattle.graph.specs.Bytes.{graph_of};
ghost use Rattle.rules.specs.Cover.{unrooted};
ghost use Rattle.rules.specs.Search.{accepts, no_cover_exists};
ghost use Rattle.replies.specs.Replies.{Answers};
ghost use Rattle.needs.specs.Given.{ForestKept};
ghost use Rattle.unrooted.specs.Answer.{HistoryReady, LimitKnown, UnrootedAnswerAsked};

use crate::unrooted::unrooted_trees;
use graph::Graph;
use needs::history::{Merges, needed_by_history};
use pieces::whole::light_forest;
use replies::Reply;

// What a limit makes of the whole forest: how many of its edges are within the limit, and how many trees the components
// there need.
#[derive(Clone, Copy)]
pub struct AtLimit {
    pub edges: usize,
    pub trees: u64,
}

// How many trees the components at the limit need ("the sum C"), and the edges of their forest: so many of the first.
fn at_limit(g: &Graph, limit: u64, kept: &[u16], merges: Merges) -> AtLimit
    requires { HistoryReady g.now kept.now merges.total.now merges.until.now }
    ensures { LimitKnown g.now kept.now limit result }
{
    let edges = light_forest(g, kept, limit);
    let trees = needed_by_history(g.vertex_count(), merges, edges, limit);
    AtLimit { edges, trees }
}

// The answer: "if the sum C exceeds k: too low, needs C"; otherwise the trees, as the buffer's first bytes.
pub fn answer_unrooted(
    g: &Graph,
    k: usize,
    limit: u64,
    kept: &[u16],
    merges: Merges,
    buf: &mut [u8],
) -> Reply
    requires { UnrootedAnswerAsked g.now k limit kept.now merges.total.now merges.until.now
        (length buf.old) }
    ensures { Answers g.now (unrooted k) limit buf.old
        buf.new result }
{
    let at = at_limit(g, limit, kept, merges);
    if (k as u64) < at.trees {
        return Reply::Needs(at.trees);
    }
    let w = unrooted_trees(g, &kept[..at.edges], limit, buf);
    Reply::Cover(limit, w.heaviest, w.trees)
}

// Whether the limit is accepted. Nothing is split or written for this. Each component needs a tree, so the history is
// not read where there are more components than crews.
pub fn accepts_unrooted(g: &Graph, k: usize, limit: u64, kept: &[u16], merges: Merges) -> bool
    requires { HistoryReady g.now kept.now merges.total.now merges.until.now }
    ensures { result ≡ accepts g.now (unrooted k) limit }
{
    let n = g.vertex_count();
    let light = light_forest(g, kept, limit);
    if k < n - light {
        return false;
    }
    needed_by_history(n, merges, light, limit) <= k as u64
}

// Whether no cover exists at all: there are "more components than k". Each edge of the whole forest leaves one
// component fewer than the vertices are.
pub fn no_cover_unrooted(g: &Graph, k: usize, kept: &[u16]) -> bool
    requires { ForestKept g.now kept.now }
    ensures { result ≡ no_cover_exists g.now (unrooted k) }
{
    k < g.vertex_count() - kept.len()
}

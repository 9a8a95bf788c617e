// The check of a filed cover: the graph's bytes (11 to 16), the class list (53, 54), the crews (21) and the list of
// their roots (55), then the cover's bytes (31 to 35), in that order.
ghost use Rattle.std.specs.Prelude.{◌≡◌};
ghost use Rattle.graph.specs.Bytes.{graph_of};
ghost use Rattle.graph.specs.Valid.{Valid};
ghost use Rattle.rules.specs.CheckCover.{starts_right, cover_fault};
ghost use Rattle.cover.specs.Runs.{CoverGiven};
ghost use Rattle.rules.specs.Questions.{crews_in};
ghost use Rattle.admit.specs.Crews.{asks};
ghost use Rattle.filed.specs.Promise.{says, number_or0, answer, trees_fault, CheckPromise};

use crate::trees::trees_right;
use admit::crews::Kind;
use admit::question::Question;
use admit::refusal::Refusal;
use cover::heaviest::heaviest_tree;
use cover::read::cover_length;
use filed_entries::entries::entries_right;
use filed_entries::starts::{starts_at_most, starts_at_roots, starts_below};
use filed_entries::vertices::vertices_covered;
use graph::Graph;

// Document 01's number of a verdict; 0 for yes.
pub fn number_of(verdict: Result<u64, Refusal>) -> u32
    ensures { result ≡ number_or0 (says verdict) }
{
    match verdict {
        Ok(_) => 0,
        Err(f) => admit::refusal::number(f),
    }
}

// Says whether the number of trees and their starts keep the kind's rule.
fn starts_right(question: &Question, c: &[u8]) -> bool
    ensures { result ≡ starts_right (crews_in question.now) c.now }
{
    match question.kind() {
        Kind::Rooted => starts_at_roots(c, question.k(), question.vans()),
        Kind::Unrooted => starts_at_most(c, question.k()),
    }
}

// The check of the trees and the vertices, where starts and entries passed their tests.
fn check_trees(g: &Graph, c: &[u8]) -> Result<u64, Refusal>
    requires { CoverGiven g.now c.now }
    ensures { says result ≡ answer g.now c.now
        (trees_fault g.now c.now) }
{
    let mut parents = [0u8; 256];
    if !trees_right(g, c, &mut parents) {
        return Err(Refusal::Trees);
    }
    if !vertices_covered(g, c) {
        return Err(Refusal::Vertices);
    }
    Ok(heaviest_tree(g, c))
}

// The check of the cover's bytes, for a graph. It is compiled apart from the test of the question: in one function with
// it, it is slower.
#[inline(never)]
fn check_filed(question: &Question, g: &Graph, c: &[u8]) -> Result<u64, Refusal>
    requires { Valid g.now }
    ensures { says result ≡ answer g.now c.now
        (cover_fault g.now (crews_in question.now) c.now) }
{
    if c.len() < 4 {
        return Err(Refusal::Length);
    }
    if c.len() != cover_length(c) {
        return Err(Refusal::Length);
    }
    if !starts_right(question, c) {
        return Err(Refusal::Starts);
    }
    if !starts_below(c, g.vertex_count()) {
        return Err(Refusal::Starts);
    }
    if !entries_right(c, g.edge_count()) {
        return Err(Refusal::Entries);
    }
    check_trees(g, c)
}

// The check, of a question with the lists that are brought: how much the heaviest tree weighs where c is the bytes of a
// cover of the graph by the crews, and otherwise why it is not, or why the question is refused.
pub fn check(question: &Question, c: &[u8]) -> Result<u64, Refusal>
    ensures { CheckPromise question.now c.now result }
{
    admit::admit(question)?;
    check_filed(question, &question.graph(), c)
}

// The check of a question without lists.
pub fn check_cover(kind: Kind, k: usize, b: &[u8], c: &[u8]) -> Result<u64, Refusal>
    ensures { CheckPromise (asks kind k b.now) c.now result }
{
    check(&Question::new(kind, k, b), c)
}

// The question of the walk: the check of the cover first, then 51 and 52, and then the walk.
ghost use Rattle.std.specs.Prelude.{◌≡◌, length};
ghost use Rattle.graph.specs.Bytes.{graph_of};
ghost use Rattle.closed_walk.specs.Promise.{says, WalkPromise};
ghost use Rattle.closed_walk.specs.Checked.{CheckedGiven, TreeAsked, TreeWalked, CheckedWalked};

use crate::run::{read_run, run_begin};
use crate::write::write_walk;
use admit::question::Question;
use admit::refusal::{LEAST_WALK_ROOM, Refusal};
use cover::heaviest::edges_weight;
use cover::read::{start_in, trees_in};
use cover::runs::run_end;
use filed::check::check;
use graph::Graph;

// What was walked. The stops stand in the buffer.
#[derive(Clone, Copy)]
pub struct Walked {
    // How many stops it has.
    pub stops: usize,
    pub length: u64,
}

// Document 01's and 02's number of an answer; 0 for a walk.
pub fn number_of(walked: Result<Walked, Refusal>) -> u32
    ensures { result ≡ (says walked).number }
{
    match walked {
        Err(f) => admit::refusal::number(f),
        Ok(_) => 0,
    }
}

// The walk along one tree of a cover: its stops, two bytes each, and its length, twice the tree's weight.
fn walk_tree(g: &Graph, c: &[u8], tree: usize, buf: &mut [u8]) -> Result<Walked, Refusal>
    requires { TreeAsked g.now c.now tree (length buf.old) }
    ensures { TreeWalked g.now c.now tree
        buf.old buf.new result }
{
    let from = run_begin(c, tree);
    let to = run_end(c, tree, from);
    let mut room = [0u16; 255];
    let q = read_run(c, from, to, &mut room);
    let edges = &room[..q];
    let written = write_walk(g, start_in(c, tree), edges, buf);
    let length = 2 * edges_weight(g, edges);
    Ok(Walked {
        stops: written / 2,
        length,
    })
}

// The same of a cover that passed the check, unless it has no such tree (51) or the buffer is too small (52).
fn walk_checked(g: &Graph, c: &[u8], tree: usize, buf: &mut [u8]) -> Result<Walked, Refusal>
    requires { CheckedGiven g.now c.now }
    ensures { CheckedWalked g.now c.now tree
        buf.old buf.new result }
{
    if trees_in(c) <= tree {
        return Err(Refusal::TreeNumber);
    }
    if buf.len() < LEAST_WALK_ROOM {
        return Err(Refusal::WalkRoom);
    }
    walk_tree(g, c, tree, buf)
}

// The walk along one tree of a filed cover, of a question with the lists that are brought.
pub fn walk(question: &Question, c: &[u8], tree: usize, buf: &mut [u8]) -> Result<Walked, Refusal>
    ensures { WalkPromise question.now c.now tree buf.old buf.new result }
{
    check(question, c)?;
    walk_checked(&question.graph(), c, tree, buf)
}

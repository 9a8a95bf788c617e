// The lines of a cover's trees (document 01: "per tree `tree` start weight and its lines"), from the bytes of the
// cover. The entries of one tree stand side by side, so that one walk through the entries serves all trees.
ghost use Rattle.std.specs.Prelude.{◌+◌, ◌≤◌, length};
ghost use Rattle.lists.specs.Put.{PutTo};
ghost use Rattle.graph.specs.Bytes.{graph_of};
ghost use Rattle.rules.specs.CoverBytes.{decode};
ghost use Rattle.cover.specs.Runs.{run_edges};
ghost use Rattle.reply_text.specs.Lines.{all_spaced};
ghost use Rattle.reply_text.specs.Text.{tree_line, tree_lines};
ghost use Rattle.reply_text.specs.Trees.{run_tree, TreeTextAsked, TreesAsked};

use crate::lines::{put_spaced, put_word};
use cover::heaviest::run_weight;
use cover::read::{entry_edge, start_in, trees_in};
use cover::runs::run_end;
use graph::Graph;

// The edges of a run of entries, each behind a space, from a place on.
fn put_run(c: &[u8], from: usize, to: usize, out: &mut [u8], at: usize) -> usize
    requires { at + length (all_spaced (run_edges c.now from to)) ≤ length out.old }
    ensures { PutTo at (all_spaced (run_edges c.now from to)) out.old out.new result }
{
    let mut next = at;
    for i in from..to {
        next = put_spaced(entry_edge(c, i) as u64, out, next);
    }
    next
}

// The line of tree j, whose entries are the run, from a place on.
fn put_tree(
    g: &Graph,
    c: &[u8],
    j: usize,
    from: usize,
    to: usize,
    out: &mut [u8],
    at: usize,
) -> usize
    requires { TreeTextAsked g.now c.now j from to at (length out.old) }
    ensures { PutTo at (tree_line g.now (run_tree c.now j
        from to)) out.old out.new result }
{
    let weight = run_weight(g, c, from, to);
    let behind_word = put_word(b"tree", out, at);
    let behind_start = put_spaced(start_in(c, j) as u64, out, behind_word);
    let behind_weight = put_spaced(weight, out, behind_start);
    let behind_edges = put_run(c, from, to, out, behind_weight);
    put_word(b"\n", out, behind_edges)
}

// The lines of all trees of a cover, from a place on.
pub(crate) fn put_trees(g: &Graph, c: &[u8], out: &mut [u8], at: usize) -> usize
    requires { TreesAsked g.now c.now at (length out.old) }
    ensures { PutTo at (tree_lines g.now (decode c.now))
        out.old out.new result }
{
    let mut next = at;
    let mut from = 0;
    for j in 0..trees_in(c) {
        let to = run_end(c, j, from);
        next = put_tree(g, c, j, from, to, out, next);
        from = to;
    }
    next
}

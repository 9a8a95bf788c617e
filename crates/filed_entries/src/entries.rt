// The entries of a filed cover (33): each names a tree and an edge, and they rise strictly by tree, then by edge.
ghost use Rattle.std.specs.Prelude.{◌≡◌};
ghost use Rattle.rules.specs.CoverBytes.{entry_tree, entry_edge};
ghost use Rattle.rules.specs.CheckCover.{entry_rises, entry_right, entries_right};

use cover::read::{entries_in, entry_edge, entry_tree, trees_in};

// Entry i, of this tree and this edge, comes strictly after the entry before it.
fn entry_rises(c: &[u8], i: usize, tree: usize, edge: usize) -> bool
    requires { (tree ≡ entry_tree c.now i) × (edge ≡ entry_edge c.now i) }
    ensures { result ≡ entry_rises c.now i }
{
    if i == 0 {
        return true;
    }
    let before = entry_tree(c, i - 1);
    if before < tree {
        return true;
    }
    if before != tree {
        return false;
    }
    entry_edge(c, i - 1) < edge
}

// Entry i names a tree and one of m edges, and rises.
fn entry_right(c: &[u8], m: usize, i: usize) -> bool
    ensures { result ≡ entry_right m c.now i }
{
    let tree = entry_tree(c, i);
    if trees_in(c) <= tree {
        return false;
    }
    let edge = entry_edge(c, i);
    if m <= edge {
        return false;
    }
    entry_rises(c, i, tree, edge)
}

// Every entry does.
pub fn entries_right(c: &[u8], m: usize) -> bool
    ensures { result ≡ entries_right m c.now }
{
    (0..entries_in(c)).all(|i| entry_right(c, m, i))
}

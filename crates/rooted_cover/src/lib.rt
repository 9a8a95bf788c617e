// The cover of an accepted trial by crews with roots (document 01, a "yard" trial, step 6): the tree of each root, made
// and written.
// The words of the contracts stand in specs/ and in the definitions of the crate `rules`.
#![tactic(auto)]

pub mod cover_trees;
pub mod tree;

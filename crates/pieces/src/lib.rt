// What trials of both kinds stand on: the forest of the whole graph, the arcs over a forest's edges, lists of edges in
// one array, and trees in order of a key.
// The words of the contracts stand in specs/ and in the definitions of the crate `rules`.
#![tactic(auto)]

pub mod arcs;
pub mod chosen;
pub mod pieces;
pub mod whole;

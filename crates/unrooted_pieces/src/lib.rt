// The pieces that the splitting leaves, as the trees of an answer for crews without roots (document 01, a "roving"
// trial, step 7): which pieces are trees, where each starts, and what orders them.
// The words of the contracts stand in specs/ and in the definitions of the crate `rules`.
#![tactic(auto)]

pub mod components;
pub mod tree_places;

// Edges ("lines") in order: all of a graph by weight, then number (document 01, step 2), and a few by number.
// The words of the contracts stand in specs/ and in the definitions of the crate `rules`.
#![tactic(auto)]

pub mod order;

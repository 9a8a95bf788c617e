// The check of a filed cover (document 01, 31 to 35), after the graph's bytes and the crews.
// Its tests of single starts, entries and vertices stand in the crate `filed_entries`.
// The words of the contracts stand in specs/ and in the definitions of `rules`.
#![tactic(auto)]

pub mod check;
mod parents;
mod trees;

// The table of distances from all roots of a rooted trial, and a part's nearest vertex by a row of it.
// The words of the contracts stand in specs/ and in the definitions of the crate `rules`.
#![tactic(auto)]

pub mod nearest;
pub mod table;

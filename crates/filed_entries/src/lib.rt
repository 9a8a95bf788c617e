// The tests of a filed cover that look at single starts, entries and vertices (document 01, 32, 33 and 35).
// The words of the contracts stand in specs/ and in the definitions of `rules`.
#![tactic(auto)]

pub mod entries;
pub mod starts;
pub mod vertices;

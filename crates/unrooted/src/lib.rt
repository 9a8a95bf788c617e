// A trial by crews without roots (document 01, a "roving" trial): whether a limit is accepted, and the answer at a
// limit. What the components need stands in the crate `needs`, and which pieces are trees, and their order, in
// `unrooted_pieces`.
// The words of the contracts stand in specs/ and in the definitions of the crate `rules`.
#![tactic(auto)]

pub mod answer;
pub mod unrooted;

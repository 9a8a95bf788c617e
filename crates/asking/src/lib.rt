// A question about a graph and crews that are not refused: prepared in arrays of a fitting size, and answered, for
// crews with roots and without.
// The words of the contracts stand in specs/ and in the definitions of the crate `rules`.
#![tactic(auto)]

pub mod ask;
pub mod ask_rooted;
pub mod ask_unrooted;

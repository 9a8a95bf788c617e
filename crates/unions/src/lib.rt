// What a rooted trial takes of edges and parts: the places of the parts among the pieces, the edges of a union, the
// parts of a deficient set.
// The words of the contracts stand in specs/ and in the definitions of the crate `rules`.
#![tactic(auto)]

pub mod deficient;
pub mod places;
pub mod union;

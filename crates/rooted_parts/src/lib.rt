// The parts of a trial by crews with roots (document 01, a "yard" trial, steps 4 and 5), placed.
// The words of the contracts stand in specs/ and in the definitions of the crate `rules`.
#![tactic(auto)]

pub mod parts;
pub mod within;

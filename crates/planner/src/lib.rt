// Trials at a limit and the best limit (document 01), for crews with roots and without, on any input.
// The words of the contracts stand in specs/ and in the definitions of the crate `rules`.
#![tactic(auto)]

pub mod question;

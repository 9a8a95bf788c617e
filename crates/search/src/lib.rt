// The search for the best limit (document 01, "The best limit"), by crews with roots or without, over what is prepared
// once a question.
// The words of the contracts stand in specs/ and in the definitions of the crate `rules`.
#![tactic(auto)]

pub mod decide;
pub mod limit;

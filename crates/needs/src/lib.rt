// The components of a forest (document 01, step 7): their lowest vertices, and how many trees they need at any limit.
// The words of the contracts stand in specs/ and in the definitions of the crate `rules`.
#![tactic(auto)]

pub mod history;
pub mod roots;

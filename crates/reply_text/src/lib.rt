// The text of replies (document 01, "The program `rounds`"), written into a lent array of bytes.
// The words of the contracts stand in specs/ and in the definitions of the crate `rules`.
#![tactic(auto)]

pub mod lines;
pub mod reply;
pub mod trees;

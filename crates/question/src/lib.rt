// The program's question (document 01, "The program `rounds`"): from the bytes of standard input to the text of
// standard output.
// The words of the contracts stand in specs/ and in the definitions of the crate `rules`.
#![tactic(auto)]

pub mod question;

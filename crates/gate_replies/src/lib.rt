// Replies as the program of the gate prints them: the text that the rules fix of a reply, and the reply in full as
// bytes.
// The words of the contracts stand in specs/ and in the definitions of the crates `rules` and `reply_text`.
#![tactic(auto)]

mod fields;
pub mod fixed;
pub mod full;

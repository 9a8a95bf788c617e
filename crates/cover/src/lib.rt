// The bytes of a cover: reading and writing them, the runs of its entries, and its heaviest tree.
// The words of the contracts stand in specs/ and in the definitions of `rules`.
#![tactic(auto)]

pub mod heaviest;
pub mod index;
pub mod read;
pub mod runs;
pub mod write;

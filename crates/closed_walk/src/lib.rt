// The closed walk along one tree of a filed cover (document 02, A.1): the stops of the only walk that begins and ends at
// the tree's start, crosses each of its edges twice, and takes the lowest edge not yet walked first.
// The words of the contracts stand in specs/ and in the definitions of `rules` (`ClosedWalk`, `WalkQuestion`).
#![tactic(auto)]

mod run;
mod turn;
pub mod walk;
mod write;

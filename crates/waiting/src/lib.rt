// The small steps of a search for distances from a root ("yard"): who waits to be settled, the last edge of a path to a
// vertex, and one arc relaxed. No bytes are read. The words of the contracts stand in specs/.
#![tactic(auto)]

pub mod last;
pub mod relax;
pub mod wait;

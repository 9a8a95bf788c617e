// The roots near each vertex and near each part of a trial (document 01, step 5: "a yard whose distance to the part's
// nearest stop is at most B"), as the bits of a word: bit j is root j's. So a decision marks all roots at once, in one
// pass over the steps, and splits no tree; and an answer those near the parts that it has split.
// The words of the contracts stand in specs/.
#![tactic(auto)]

pub mod held;
pub mod parts;
pub mod rows;
pub mod vertices;

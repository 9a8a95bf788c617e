// The forest of a trial (document 01, step 2): the labels that say which vertices ("stops") are joined, the edges
// ("lines") that are kept, the lowest vertices, and marks of vertices.
// Index arrays are lent by the caller as slices of u16; the graph is read from its bytes.
// The words of the contracts stand in specs/ and in the definitions of the crate `rules`.
#![tactic(auto)]

pub mod keep;
pub mod labels;
pub mod lowest;
pub mod marks;

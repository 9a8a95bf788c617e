// The edges ("lines") of a graph in arrays: in buckets, within a limit, by rising number, and around each vertex
// ("stop"). Index arrays are lent by the caller as slices of u16; the graph is read from its bytes.
// The words of the contracts stand in specs/ and in the definitions of the crate `rules`.
#![tactic(auto)]

pub mod arc;
pub mod around;
pub mod buckets;
pub mod index;
pub mod light;
pub mod sweep;

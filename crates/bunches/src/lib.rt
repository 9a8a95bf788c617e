// What splitting a forest's trees does at each node (document 01, step 4): a child's piece becomes a part, fills the
// bunch up to a part, or joins the bunch; and a piece moves from the stack of edges to the arrays that hold the pieces.
// The words of the contracts stand in specs/ and in the definitions of the crate `rules`.
#![tactic(auto)]

pub mod bunch;
pub mod piece;

// How far the splitting has come: the number of pieces and of edges in them, the height of the stack of edges,
// and the weight of what lies on its top.
#[derive(Clone, Copy)]
pub struct Progress {
    pub pieces: usize,
    pub used: usize,
    pub top: usize,
    pub weight: u64,
}

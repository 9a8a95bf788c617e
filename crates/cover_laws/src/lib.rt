#![tactic(auto)]

// Theorems on covers: the check of a filed cover says yes exactly to covers, and the closed walks along a cover's trees.
// See proofs/. There is no code here.

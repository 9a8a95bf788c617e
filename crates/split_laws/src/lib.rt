#![tactic(auto)]

// Theorems on growing the forest's trees from their roots and on splitting them into parts: see proofs/. There is no
// code here.

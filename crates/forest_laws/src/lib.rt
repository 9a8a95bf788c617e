#![tactic(auto)]

// Theorems on merged labels, the forest of kept edges and its weight: see proofs/. There is no code here.

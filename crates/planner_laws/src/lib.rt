#![tactic(auto)]

// Theorems on trials and the best limit: the lower bounds, the covers of accepted trials, the search, our longest closed
// walk against anybody's, and what every reply means. See proofs/. There is no code here.

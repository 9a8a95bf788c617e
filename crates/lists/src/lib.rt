#![tactic(auto)]

// Words on lists and counts that every crate's definitions share: see specs/, and proofs/ for their laws. There is no
// code here.

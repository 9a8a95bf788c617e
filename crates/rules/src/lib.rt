#![tactic(auto)]

// Document 01 as definitions: see specs/. proofs/ has the laws of them that the theorems of the crates above share.
// There is no code here.

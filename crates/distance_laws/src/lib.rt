#![tactic(auto)]

// Theorems on distances: they are the least weights of walks. See proofs/. There is no code here.

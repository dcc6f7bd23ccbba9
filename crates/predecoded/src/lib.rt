// The runs by the engine that keeps decoded words.
#![tactic(auto)]

pub mod runs; // runs.rt: the plain runs' contracts

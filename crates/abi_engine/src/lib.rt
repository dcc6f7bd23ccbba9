// The functions that run by the engine that keeps decoded words, over a state of lent bytes.
#![tactic(auto)]

pub mod runs; // runs.rt: the runs, told whether they reached or not

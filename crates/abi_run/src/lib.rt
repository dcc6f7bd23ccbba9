// The functions that run, over a state of lent bytes.
#![tactic(auto)]

pub mod runs; // runs.rt: the runs and the single step

// The function that runs until a stop, over a state of lent bytes.
#![tactic(auto)]

pub mod runs; // runs.rt: the run that ends at a stop

// The functions that tell what a step would do, over a state of lent bytes.
#![tactic(auto)]

pub mod told; // told.rt: what it would do, and its data access

// Line 6 of a step with its word already read. An instruction that stores first has the entries of the words dropped that it may store to.
#![tactic(auto)]

pub mod store; // store.rt: stores, clears and frames
pub mod perform; // perform.rt: every form

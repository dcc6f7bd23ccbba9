// What one step of a core would do, asked before it is taken.
#![tactic(auto)]

pub mod fault; // fault.rt: the synchronous interrupt that the instruction at IAR raises
pub mod uses; // uses.rt: the data access that a step tries
pub mod told; // told.rt: which of its lines a step ends in

// Runs: the operations on a core that a bench uses, with every refusal.
#![tactic(auto)]

pub mod lent; // lent.rt: the single step over a lent state
pub mod outcome; // outcome.rt: what is answered, and what is refused
pub mod run; // run.rt: the run and the single step
pub mod reach; // reach.rt: the run that tells whether it reached past its memory
pub mod inside; // inside.rt: the run that ends with the first step that reaches past its memory

// Captures: what a site sends of a core, read and written.
#![tactic(auto)]

pub mod words; // words.rt: big-endian words, and the 36 of a state
pub mod read; // read.rt: the memory part, and the state or the refusal
pub mod write; // write.rt: a capture made of a state and its memory

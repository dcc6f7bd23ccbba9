// The engine that keeps decoded words.
#![tactic(auto)]

pub mod kept; // kept.rt: steps by kept words

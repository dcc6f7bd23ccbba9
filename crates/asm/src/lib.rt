// A line as its word, and a word as its line.
#![tactic(auto)]

pub mod assemble;
pub mod disassemble;
pub mod fill;
pub mod operands;

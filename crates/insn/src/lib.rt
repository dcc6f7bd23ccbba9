#![tactic(auto)]

pub mod codes;
pub mod fields;
pub mod forms;
pub mod instr;
pub mod profile;
pub mod read;
pub mod valid;
pub mod write;

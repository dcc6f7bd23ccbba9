// Motorola S-records: the memory files that sites keep, read and written.
#![tactic(auto)]

pub mod hex; // hex.rt: bytes spelt by hex digits
pub mod line; // line.rt: a line and its record
pub mod named; // named.rt: the bytes named so far, a bit for each
pub mod check; // check.rt: the first line that is refused; nothing is stored
pub mod read; // read.rt: a good file into memory
pub mod write; // write.rt: memory as a file

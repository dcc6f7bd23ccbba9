// The functions of words and lines of assembly, on numbers and lent bytes.
#![tactic(auto)]

pub mod words; // words.rt: whether a word is legal, and what writing gives
pub mod lines; // lines.rt: a line as its word, and a word as its line

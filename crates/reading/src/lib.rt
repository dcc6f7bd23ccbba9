// What the word at an address reads as, in a form that is small to keep.
#![tactic(auto)]

pub mod form; // form.rt: the forms, an instruction's form
pub mod reading; // reading.rt: a word and its form

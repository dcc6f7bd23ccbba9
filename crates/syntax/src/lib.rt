// The syntax lines of 9.4: a line's row in their table and its operands, read, and printed.
#![tactic(auto)]

pub mod field;
pub mod five;
pub mod item;
pub mod line;
pub mod print;
pub mod row;
pub mod slot;
pub mod table;

// A step that marks a reach past its memory, for the runs that tell one.
#![tactic(auto)]

pub mod mark; // mark.rt: the mark, in the halt code's place
pub mod step; // step.rt: the six lines, a reach marked

// Lines 2 to 5 of a step, which come before its word is asked for.
#![tactic(auto)]

pub mod lines; // lines.rt: the lines, and whether line 6 comes

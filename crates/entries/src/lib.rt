// The tags of the words that an engine keeps, by set and way.
#![tactic(auto)]

pub mod tags; // tags.rt: found, and dropped

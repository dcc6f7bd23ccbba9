// The one door to lent memory: addresses 0 to M-1, big-endian. Nothing else in the project compares an address with M.
#![tactic(auto)]

pub mod access; // access.rt: whether an access is served, unaligned or outside
pub mod load; // load.rt: fetches and loads
pub mod store; // store.rt: stores, and the clearing of a block

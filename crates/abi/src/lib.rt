// The C boundary below its names: functions on numbers and lent bytes, each of either profile. The crates whose names end in _c
// export them as include/ppe42.h declares, since no crate is a library and a static library at once. Those of captures and S-records
// are here, the others in abi_run, abi_engine, abi_until, abi_tell and abi_asm: a check loads the proofs of all that its crate calls,
// and all at once are too many. All that is decided here is that a state of other than 144 bytes gets refusal 7 (docs/DECISIONS.md
// D31), and how a line number is told that has no room in 32 bits (D43).
#![tactic(auto)]

pub mod answer; // answer.rt: a refusal and a count as one number, for all C functions
pub mod captures; // captures.rt: captures, checked and written
pub mod records; // records.rt: S-records, read and written

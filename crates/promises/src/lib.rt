// The promises are theorems about the definitions; this crate has no code. Read docs/PROMISES.md.
#![tactic(auto)]

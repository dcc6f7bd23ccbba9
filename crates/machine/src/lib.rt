// The machine: the state of a core, and what one step makes of it.
#![tactic(auto)]

pub mod state; // state.rt: the registers, each written alone
pub mod refusal; // refusal.rt: refusals and their numbers
pub mod register; // register.rt: defined bits, contents, acceptance
pub mod interrupt; // interrupt.rt: entry, promotion, the halt
pub mod timer; // timer.rt: the event byte, and the watchdog
pub mod result; // result.rt: NIA, CR0 and XER
pub mod arithmetic; // arithmetic.rt: sums and products
pub mod logical; // logical.rt: and, or, xor, EXTS, cntlzw
pub mod compare; // compare.rt: CR0 by an order
pub mod rotate; // rotate.rt: rotates under a mask, shifts
pub mod load_store; // load_store.rt: loads and stores
pub mod stack; // stack.rt: stack frames
pub mod branch; // branch.rt: branches
pub mod cache; // cache.rt: dcbz
pub mod system; // system.rt: traps, special registers, rfi
pub mod step; // step.rt: the six lines

// What C links of abi_run: its functions that run, under the names that include/ppe42.h declares.
// Each stands twice, since the C interface has the core in a function's name.
#![tactic(auto)]

ghost use Rattle.std.specs.Prelude.{◌≡◌};
ghost use Rattle.insn.specs.declared.profile.Profile.{Profile};
ghost use Rattle.abi_run.specs.Runs.{run_answer, run_state, run_lent, reach_answer, inside_answer, inside_state, inside_lent, step_answer, step_state, step_lent};

use abi::answer::answer;
use insn::profile::Profile;

// A run. The state is 36 big-endian words in capture order.
#[unsafe(no_mangle)]
pub extern "C" fn ppe42_run(state: &mut [u8], memory: &mut [u8], events: &[u8], budget: u32) -> u64
    ensures { (result ≡ run_answer Profile.Ppe42 state.old memory.old events.now budget) × ((state.new ≡ run_state Profile.Ppe42 state.old memory.old events.now budget) × (memory.new ≡ run_lent Profile.Ppe42 state.old memory.old events.now budget)) }
{
    answer(abi_run::runs::run(Profile::Ppe42, state, memory, events, budget))
}

// The same run, and 2^63 if it reached past its memory.
#[unsafe(no_mangle)]
pub extern "C" fn ppe42_run_reach(
    state: &mut [u8],
    memory: &mut [u8],
    events: &[u8],
    budget: u32,
) -> u64
    ensures { (result ≡ reach_answer Profile.Ppe42 state.old memory.old events.now budget) × ((state.new ≡ run_state Profile.Ppe42 state.old memory.old events.now budget) × (memory.new ≡ run_lent Profile.Ppe42 state.old memory.old events.now budget)) }
{
    answer(abi_run::runs::run_reach(Profile::Ppe42, state, memory, events, budget))
}

// The run that ends with the first step that reaches past its memory, and then 2^63.
#[unsafe(no_mangle)]
pub extern "C" fn ppe42_run_inside(
    state: &mut [u8],
    memory: &mut [u8],
    events: &[u8],
    budget: u32,
) -> u64
    ensures { (result ≡ inside_answer Profile.Ppe42 state.old memory.old events.now budget) × ((state.new ≡ inside_state Profile.Ppe42 state.old memory.old events.now budget) × (memory.new ≡ inside_lent Profile.Ppe42 state.old memory.old events.now budget)) }
{
    answer(abi_run::runs::run_inside(Profile::Ppe42, state, memory, events, budget))
}

// One step, with its event byte.
#[unsafe(no_mangle)]
pub extern "C" fn ppe42_step(state: &mut [u8], memory: &mut [u8], event: u8) -> u64
    ensures { (result ≡ step_answer Profile.Ppe42 state.old memory.old event) × ((state.new ≡ step_state Profile.Ppe42 state.old memory.old event) × (memory.new ≡ step_lent Profile.Ppe42 state.old memory.old event)) }
{
    answer(abi_run::runs::step(Profile::Ppe42, state, memory, event))
}

// The same of a 42X.
#[unsafe(no_mangle)]
pub extern "C" fn ppe42x_run(state: &mut [u8], memory: &mut [u8], events: &[u8], budget: u32) -> u64
    ensures { (result ≡ run_answer Profile.Ppe42x state.old memory.old events.now budget) × ((state.new ≡ run_state Profile.Ppe42x state.old memory.old events.now budget) × (memory.new ≡ run_lent Profile.Ppe42x state.old memory.old events.now budget)) }
{
    answer(abi_run::runs::run(Profile::Ppe42x, state, memory, events, budget))
}

#[unsafe(no_mangle)]
pub extern "C" fn ppe42x_run_reach(
    state: &mut [u8],
    memory: &mut [u8],
    events: &[u8],
    budget: u32,
) -> u64
    ensures { (result ≡ reach_answer Profile.Ppe42x state.old memory.old events.now budget) × ((state.new ≡ run_state Profile.Ppe42x state.old memory.old events.now budget) × (memory.new ≡ run_lent Profile.Ppe42x state.old memory.old events.now budget)) }
{
    answer(abi_run::runs::run_reach(Profile::Ppe42x, state, memory, events, budget))
}

#[unsafe(no_mangle)]
pub extern "C" fn ppe42x_run_inside(
    state: &mut [u8],
    memory: &mut [u8],
    events: &[u8],
    budget: u32,
) -> u64
    ensures { (result ≡ inside_answer Profile.Ppe42x state.old memory.old events.now budget) × ((state.new ≡ inside_state Profile.Ppe42x state.old memory.old events.now budget) × (memory.new ≡ inside_lent Profile.Ppe42x state.old memory.old events.now budget)) }
{
    answer(abi_run::runs::run_inside(Profile::Ppe42x, state, memory, events, budget))
}

#[unsafe(no_mangle)]
pub extern "C" fn ppe42x_step(state: &mut [u8], memory: &mut [u8], event: u8) -> u64
    ensures { (result ≡ step_answer Profile.Ppe42x state.old memory.old event) × ((state.new ≡ step_state Profile.Ppe42x state.old memory.old event) × (memory.new ≡ step_lent Profile.Ppe42x state.old memory.old event)) }
{
    answer(abi_run::runs::step(Profile::Ppe42x, state, memory, event))
}

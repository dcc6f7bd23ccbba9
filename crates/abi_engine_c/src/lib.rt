// What C links of abi_engine: its functions that run by the engine that keeps decoded words, under the names that include/ppe42.h declares.
// Each stands twice, since the C interface has the core in a function's name.
#![tactic(auto)]

ghost use Rattle.std.specs.Prelude.{◌≡◌};
ghost use Rattle.insn.specs.declared.profile.Profile.{Profile};
ghost use Rattle.abi_run.specs.Runs.{run_answer, run_state, run_lent, reach_answer};

use abi::answer::answer;
use insn::profile::Profile;

// A run, its answer, state and memory those of ppe42_run.
#[unsafe(no_mangle)]
pub extern "C" fn ppe42_run_predecoded(
    state: &mut [u8],
    memory: &mut [u8],
    events: &[u8],
    budget: u32,
) -> u64
    ensures { (result ≡ run_answer Profile.Ppe42 state.old memory.old events.now budget) × ((state.new ≡ run_state Profile.Ppe42 state.old memory.old events.now budget) × (memory.new ≡ run_lent Profile.Ppe42 state.old memory.old events.now budget)) }
{
    answer(abi_engine::runs::run_predecoded(Profile::Ppe42, state, memory, events, budget))
}

// The same run, and 2^63 if it reached past its memory.
#[unsafe(no_mangle)]
pub extern "C" fn ppe42_run_predecoded_reach(
    state: &mut [u8],
    memory: &mut [u8],
    events: &[u8],
    budget: u32,
) -> u64
    ensures { (result ≡ reach_answer Profile.Ppe42 state.old memory.old events.now budget) × ((state.new ≡ run_state Profile.Ppe42 state.old memory.old events.now budget) × (memory.new ≡ run_lent Profile.Ppe42 state.old memory.old events.now budget)) }
{
    answer(abi_engine::runs::run_predecoded_reach(Profile::Ppe42, state, memory, events, budget))
}

// The same of a 42X.
#[unsafe(no_mangle)]
pub extern "C" fn ppe42x_run_predecoded(
    state: &mut [u8],
    memory: &mut [u8],
    events: &[u8],
    budget: u32,
) -> u64
    ensures { (result ≡ run_answer Profile.Ppe42x state.old memory.old events.now budget) × ((state.new ≡ run_state Profile.Ppe42x state.old memory.old events.now budget) × (memory.new ≡ run_lent Profile.Ppe42x state.old memory.old events.now budget)) }
{
    answer(abi_engine::runs::run_predecoded(Profile::Ppe42x, state, memory, events, budget))
}

#[unsafe(no_mangle)]
pub extern "C" fn ppe42x_run_predecoded_reach(
    state: &mut [u8],
    memory: &mut [u8],
    events: &[u8],
    budget: u32,
) -> u64
    ensures { (result ≡ reach_answer Profile.Ppe42x state.old memory.old events.now budget) × ((state.new ≡ run_state Profile.Ppe42x state.old memory.old events.now budget) × (memory.new ≡ run_lent Profile.Ppe42x state.old memory.old events.now budget)) }
{
    answer(abi_engine::runs::run_predecoded_reach(Profile::Ppe42x, state, memory, events, budget))
}

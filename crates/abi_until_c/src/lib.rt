// What C links of abi_until: its functions that run until a stop, under the names that include/ppe42.h declares.
// Each stands twice, since the C interface has the core in a function's name.
#![tactic(auto)]

ghost use Rattle.std.specs.Prelude.{◌≡◌};
ghost use Rattle.insn.specs.declared.profile.Profile.{Profile};
ghost use Rattle.abi_until.specs.Runs.{until_answer, until_state, until_lent};

use abi::answer::answer;
use insn::profile::Profile;

// A run that ends with the first step that leaves IAR at a stop.
#[unsafe(no_mangle)]
pub extern "C" fn ppe42_run_until(
    state: &mut [u8],
    memory: &mut [u8],
    events: &[u8],
    stops: &[u8],
    budget: u32,
) -> u64
    ensures { (result ≡ until_answer Profile.Ppe42 state.old memory.old events.now stops.now budget) × ((state.new ≡ until_state Profile.Ppe42 state.old memory.old events.now stops.now budget) × (memory.new ≡ until_lent Profile.Ppe42 state.old memory.old events.now stops.now budget)) }
{
    answer(abi_until::runs::run_until(Profile::Ppe42, state, memory, events, stops, budget))
}

// The same of a 42X.
#[unsafe(no_mangle)]
pub extern "C" fn ppe42x_run_until(
    state: &mut [u8],
    memory: &mut [u8],
    events: &[u8],
    stops: &[u8],
    budget: u32,
) -> u64
    ensures { (result ≡ until_answer Profile.Ppe42x state.old memory.old events.now stops.now budget) × ((state.new ≡ until_state Profile.Ppe42x state.old memory.old events.now stops.now budget) × (memory.new ≡ until_lent Profile.Ppe42x state.old memory.old events.now stops.now budget)) }
{
    answer(abi_until::runs::run_until(Profile::Ppe42x, state, memory, events, stops, budget))
}

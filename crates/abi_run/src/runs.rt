// Runs and the single step, over a state of lent bytes.
ghost use Rattle.std.specs.Prelude.{◌≡◌, ◌+◌, ◌^◌, ◌<◌, IfOk};
ghost use Rattle.memory.specs.Access.{pick};
ghost use Rattle.abi_run.specs.Runs.{run_count, run_state, run_lent, reach_count, inside_count, inside_state, inside_lent, step_count, step_state, step_lent};

use abi::answer::lent_state;
use capture::words::put_state;
use insn::profile::Profile;
use machine::refusal::Refusal;
use run::reach::Reached;

// What is counted of a run that tells a reach: its steps, and 2^63 if it reached past its memory.
pub fn counted(reached: Reached) -> u64
    ensures { result ≡ reached.outcome.steps + pick reached.past (2 ^ 63) 0 }
{
    let steps = u64::from(reached.outcome.steps);
    if reached.past {
        steps + 0x8000_0000_0000_0000
    } else {
        steps
    }
}

// A run. The state is 36 big-endian words in capture order, which stay as they are where it is refused.
#[tactic(auto, unfolding(abi::specs::Answer::lent_of, crate::specs::Runs::run_count, crate::specs::Runs::run_state, crate::specs::Runs::run_lent))]
pub fn run(
    profile: Profile,
    state: &mut [u8],
    memory: &mut [u8],
    events: &[u8],
    budget: u32,
) -> Result<u64, Refusal>
    ensures value { (result ≡ run_count profile state.old memory.old events.now budget) × ((state.new ≡ run_state profile state.old memory.old events.now budget) × (memory.new ≡ run_lent profile state.old memory.old events.now budget)) }
    ensures small { IfOk result (λ n. n < 2 ^ 32) }
{
    let start = lent_state(state)?;
    let outcome = run::run::run(profile, start, memory, events, budget)?;
    put_state(state, 0, outcome.state);
    Ok(u64::from(outcome.steps))
}

// The same run, and 2^63 if it reached past its memory.
#[tactic(auto, unfolding(abi::specs::Answer::lent_of, crate::specs::Runs::reach_count, crate::specs::Runs::run_state, crate::specs::Runs::run_lent))]
pub fn run_reach(
    profile: Profile,
    state: &mut [u8],
    memory: &mut [u8],
    events: &[u8],
    budget: u32,
) -> Result<u64, Refusal>
    ensures { (result ≡ reach_count profile state.old memory.old events.now budget) × ((state.new ≡ run_state profile state.old memory.old events.now budget) × (memory.new ≡ run_lent profile state.old memory.old events.now budget)) }
{
    let start = lent_state(state)?;
    let reached = run::reach::run_reach(profile, start, memory, events, budget)?;
    put_state(state, 0, reached.outcome.state);
    Ok(counted(reached))
}

// The run that ends with the first step that reaches past its memory, and then 2^63.
#[tactic(auto, unfolding(abi::specs::Answer::lent_of, crate::specs::Runs::inside_count, crate::specs::Runs::inside_state, crate::specs::Runs::inside_lent))]
pub fn run_inside(
    profile: Profile,
    state: &mut [u8],
    memory: &mut [u8],
    events: &[u8],
    budget: u32,
) -> Result<u64, Refusal>
    ensures { (result ≡ inside_count profile state.old memory.old events.now budget) × ((state.new ≡ inside_state profile state.old memory.old events.now budget) × (memory.new ≡ inside_lent profile state.old memory.old events.now budget)) }
{
    let start = lent_state(state)?;
    let reached = run::inside::run_inside(profile, start, memory, events, budget)?;
    put_state(state, 0, reached.outcome.state);
    Ok(counted(reached))
}

// One step, with its event byte.
#[tactic(auto, unfolding(abi::specs::Answer::lent_of, crate::specs::Runs::step_count, crate::specs::Runs::step_state, crate::specs::Runs::step_lent))]
pub fn step(
    profile: Profile,
    state: &mut [u8],
    memory: &mut [u8],
    event: u8,
) -> Result<u64, Refusal>
    ensures value { (result ≡ step_count profile state.old memory.old event) × ((state.new ≡ step_state profile state.old memory.old event) × (memory.new ≡ step_lent profile state.old memory.old event)) }
    ensures small { IfOk result (λ n. n < 2 ^ 32) }
{
    let start = lent_state(state)?;
    let outcome = run::run::step(profile, start, memory, event)?;
    put_state(state, 0, outcome.state);
    Ok(u64::from(outcome.steps))
}

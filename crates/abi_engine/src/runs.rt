// Runs by the engine that keeps decoded words, over a state of lent bytes.
ghost use Rattle.std.specs.Prelude.{◌≡◌, ◌<◌, ◌^◌, IfOk};
ghost use Rattle.abi_run.specs.Runs.{run_count, run_state, run_lent, reach_count};

use abi::answer::lent_state;
use abi_run::runs::counted;
use capture::words::put_state;
use insn::profile::Profile;
use machine::refusal::Refusal;

#[tactic(auto, unfolding(abi::specs::Answer::lent_of, abi_run::specs::Runs::run_count, abi_run::specs::Runs::run_state, abi_run::specs::Runs::run_lent))]
pub fn run_predecoded(
    profile: Profile,
    state: &mut [u8],
    memory: &mut [u8],
    events: &[u8],
    budget: u32,
) -> Result<u64, Refusal>
    ensures value { (result ≡ run_count profile state.old memory.old events.now budget) × ((state.new ≡ run_state profile state.old memory.old events.now budget) × (memory.new ≡ run_lent profile state.old memory.old events.now budget)) }
    ensures small { IfOk result (λ n. n < 2 ^ 32) }
{
    let start = lent_state(state)?;
    let outcome = predecoded::runs::run_predecoded(profile, start, memory, events, budget)?;
    put_state(state, 0, outcome.state);
    Ok(u64::from(outcome.steps))
}

// The same run, and 2^63 if it reached past its memory.
#[tactic(auto, unfolding(abi::specs::Answer::lent_of, abi_run::specs::Runs::reach_count, abi_run::specs::Runs::run_state, abi_run::specs::Runs::run_lent))]
pub fn run_predecoded_reach(
    profile: Profile,
    state: &mut [u8],
    memory: &mut [u8],
    events: &[u8],
    budget: u32,
) -> Result<u64, Refusal>
    ensures { (result ≡ reach_count profile state.old memory.old events.now budget) × ((state.new ≡ run_state profile state.old memory.old events.now budget) × (memory.new ≡ run_lent profile state.old memory.old events.now budget)) }
{
    let start = lent_state(state)?;
    let reached = predecoded::runs::run_predecoded_reach(profile, start, memory, events, budget)?;
    put_state(state, 0, reached.outcome.state);
    Ok(counted(reached))
}

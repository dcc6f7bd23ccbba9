// The run that ends at a stop, over a state of lent bytes.
ghost use Rattle.std.specs.Prelude.{◌≡◌, ◌<◌, ◌^◌, IfOk};
ghost use Rattle.abi_until.specs.Runs.{until_count, until_state, until_lent};

use abi::answer::lent_state;
use capture::words::put_state;
use insn::profile::Profile;
use machine::refusal::Refusal;

#[tactic(auto, unfolding(abi::specs::Answer::lent_of, crate::specs::Runs::until_count, crate::specs::Runs::until_state, crate::specs::Runs::until_lent))]
pub fn run_until(
    profile: Profile,
    state: &mut [u8],
    memory: &mut [u8],
    events: &[u8],
    stops: &[u8],
    budget: u32,
) -> Result<u64, Refusal>
    ensures value { (result ≡ until_count profile state.old memory.old events.now stops.now budget) × ((state.new ≡ until_state profile state.old memory.old events.now stops.now budget) × (memory.new ≡ until_lent profile state.old memory.old events.now stops.now budget)) }
    ensures small { IfOk result (λ n. n < 2 ^ 32) }
{
    let start = lent_state(state)?;
    let outcome = until::until::run_until(profile, start, memory, events, stops, budget)?;
    put_state(state, 0, outcome.state);
    Ok(u64::from(outcome.steps))
}

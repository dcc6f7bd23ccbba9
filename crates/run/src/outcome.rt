// What a run and a single step answer, refusals first.
ghost use Rattle.std.specs.Prelude.{◌≡◌};
ghost use Rattle.run.specs.Outcome.{events_good, check_events, check_run, check_step};

use insn::profile::Profile;
use machine::refusal::Refusal;
use machine::state::State;

// What a run that is accepted leaves beside the memory. The halt code is the state's own: the scope has it in the answer, beside the
// count (docs/DECISIONS.md, Named forms).
#[derive(Clone, Copy)]
pub struct Outcome {
    pub state: State,
    pub halt: u32,
    pub steps: u32,
}

// How a run ended: its halt code, and the count of steps with it. A run's loop breaks with it, and a step over a lent state answers it.
#[derive(Clone, Copy)]
pub struct Stop {
    pub halt: u32,
    pub steps: u32,
}

// Whether every event byte is below 64.
#[tactic(auto, unfolding(crate::specs::Outcome::events_good))]
fn events_good(events: &[u8]) -> bool
    ensures { result ≡ events_good events.now }
{
    events.iter().all(|event| *event < 64)
}

// Refused as events: a list of more than 1,048,576 bytes, or one with a byte of 64 or more.
#[tactic(auto, unfolding(crate::specs::Outcome::check_events))]
fn check_events(events: &[u8]) -> Result<(), Refusal>
    ensures { result ≡ check_events events.now }
{
    if (events.len() <= 1_048_576) & events_good(events) {
        Ok(())
    } else {
        Err(Refusal::Events)
    }
}

// A run checks the memory's length, IAR, the reserved bits, the budget and the events, in this order.
#[tactic(auto, unfolding(crate::specs::Outcome::check_run))]
pub fn check_run(
    profile: Profile,
    state: State,
    mem: &[u8],
    events: &[u8],
    budget: u32,
) -> Result<(), Refusal>
    ensures { result ≡ check_run profile state mem.now events.now budget }
{
    state.check_start(profile, mem.len())?;
    if budget > 1_048_576 {
        return Err(Refusal::Budget);
    }
    check_events(events)
}

// A single step checks the same but the budget; its event is one byte.
#[tactic(auto, unfolding(crate::specs::Outcome::check_step, crate::specs::Outcome::check_events, crate::specs::Outcome::events_good))]
pub fn check_step(profile: Profile, state: State, mem: &[u8], event: u8) -> Result<(), Refusal>
    ensures { result ≡ check_step profile state mem.now event }
{
    state.check_start(profile, mem.len())?;
    if event < 64 {
        Ok(())
    } else {
        Err(Refusal::Events)
    }
}

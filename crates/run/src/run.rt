// The run and the single step.
ghost use Rattle.std.specs.Prelude.{◌≡◌, ◌-◌, get_or};
ghost use Rattle.run.specs.Run.{run_of};
ghost use Rattle.run.specs.Outcome.{accepted, run_outcome, run_memory, step_outcome, step_memory};

use crate::outcome::{Outcome, Stop, check_run, check_step};
use insn::profile::Profile;
use machine::refusal::Refusal;
use machine::state::State;

// The event byte of step i: 0 past the list's end.
pub fn event_at(events: &[u8], i: u32) -> u8
    ensures { result ≡ get_or events.now i 0 }
{
    events.get(i as usize).copied().unwrap_or(0)
}

// Steps until one halts or the budget is used, from step `from` of a run on.
#[tactic(auto, using(crate::proofs::Laws::run_more, crate::proofs::Laws::run_spent, crate::proofs::Laws::run_halted))]
pub fn run_from(
    profile: Profile,
    start: State,
    mem: &mut [u8],
    events: &[u8],
    from: u32,
    budget: u32,
) -> Outcome
    ensures { (result ≡ accepted (run_of profile (budget - from) from events.now start mem.old)) × (mem.new ≡ (run_of profile (budget - from) from events.now start mem.old).mem) }
{
    let mut s = start;
    let mut i = from;
    // The scope binds this form: a loop that breaks with the halt code, and the count of steps with it (docs/DECISIONS.md, Named forms).
    let stop = loop {
        if budget <= i || s.halt != 0 {
            break Stop {
                halt: s.halt,
                steps: i,
            };
        }
        s = s.step(profile, mem, event_at(events, i));
        i += 1;
    };
    Outcome {
        state: s,
        halt: stop.halt,
        steps: stop.steps,
    }
}

#[tactic(auto, unfolding(crate::specs::Outcome::run_outcome, crate::specs::Outcome::run_memory))]
pub fn run(
    profile: Profile,
    state: State,
    mem: &mut [u8],
    events: &[u8],
    budget: u32,
) -> Result<Outcome, Refusal>
    ensures { (result ≡ run_outcome profile state mem.old events.now budget) × (mem.new ≡ run_memory profile state mem.old events.now budget) }
{
    check_run(profile, state, &mem[..], events, budget)?;
    Ok(run_from(profile, state, mem, events, 0, budget))
}

// One step: a run of one, with one event.
#[tactic(auto, unfolding(crate::specs::Outcome::step_outcome, crate::specs::Outcome::step_memory))]
pub fn step(profile: Profile, state: State, mem: &mut [u8], event: u8) -> Result<Outcome, Refusal>
    ensures { (result ≡ step_outcome profile state mem.old event) × (mem.new ≡ step_memory profile state mem.old event) }
{
    check_step(profile, state, &mem[..], event)?;
    let events = [event];
    Ok(run_from(profile, state, mem, &events, 0, 1))
}

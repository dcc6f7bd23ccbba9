// The run that ends with the first step that leaves IAR at a stop.
ghost use Rattle.std.specs.Prelude.{◌≡◌};
ghost use Rattle.run.specs.Run.{run_of};
ghost use Rattle.run.specs.Outcome.{accepted};
ghost use Rattle.until.specs.Until.{stop_at, until_of, until_outcome, until_memory};

use insn::profile::Profile;
use machine::refusal::Refusal;
use machine::state::State;
use run::outcome::{Outcome, Stop, check_run};
use run::run::event_at;

// Whether there is a stop at this address: the list has a byte for each word.
#[tactic(auto, unfolding(crate::specs::Until::stop_at))]
fn stop_at(stops: &[u8], iar: u32) -> bool
    ensures { result ≡ stop_at stops.now iar }
{
    stops.get((iar / 4) as usize).is_some_and(|stop| *stop != 0)
}

// The run's loop, which a stop ends behind the step that came to it.
#[tactic(auto, using(crate::proofs::Laws::left_more, crate::proofs::Laws::rest_spent, run::proofs::Laws::run_halted))]
fn accepted_until(
    profile: Profile,
    start: State,
    mem: &mut [u8],
    events: &[u8],
    stops: &[u8],
    budget: u32,
) -> Outcome
    ensures { (result ≡ accepted (run_of profile (until_of profile stops.now budget 0 events.now start mem.old) 0 events.now start mem.old)) × (mem.new ≡ (run_of profile (until_of profile stops.now budget 0 events.now start mem.old) 0 events.now start mem.old).mem) }
{
    let mut s = start;
    let mut i = 0;
    let mut stopped = false;
    // The form of the plain run's loop, which the scope binds (docs/DECISIONS.md, Named forms).
    let stop = loop {
        if budget <= i || s.halt != 0 || stopped {
            break Stop {
                halt: s.halt,
                steps: i,
            };
        }
        s = s.step(profile, mem, event_at(events, i));
        i += 1;
        stopped = stop_at(stops, s.iar);
    };
    Outcome {
        state: s,
        halt: stop.halt,
        steps: stop.steps,
    }
}

#[tactic(auto, unfolding(crate::specs::Until::until_outcome, crate::specs::Until::until_memory))]
pub fn run_until(
    profile: Profile,
    state: State,
    mem: &mut [u8],
    events: &[u8],
    stops: &[u8],
    budget: u32,
) -> Result<Outcome, Refusal>
    ensures { (result ≡ until_outcome profile state mem.old events.now stops.now budget) × (mem.new ≡ until_memory profile state mem.old events.now stops.now budget) }
{
    check_run(profile, state, &mem[..], events, budget)?;
    Ok(accepted_until(profile, state, mem, events, stops, budget))
}

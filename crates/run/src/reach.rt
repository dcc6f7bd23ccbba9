// The run that tells whether it reached past its memory.
ghost use Rattle.std.specs.Prelude.{◌||◌, ◌≡◌, ◌-◌};
ghost use Rattle.run.specs.Run.{run_of, past_of};
ghost use Rattle.run.specs.Outcome.{accepted, told, run_outcome, run_memory, run_past};

use crate::outcome::{Outcome, Stop, check_run};
use crate::run::event_at;
use insn::profile::Profile;
use machine::refusal::Refusal;
use machine::state::State;
use marked::mark::unmark;
use marked::step::step_marked;

// A run's outcome, and whether it reached: both are told of every accepted run.
#[derive(Clone, Copy)]
pub struct Reached {
    pub outcome: Outcome,
    pub past: bool,
}

// The run's loop from step `from` on, where the steps before it reached or not: the mark of a reach is told and taken off after its step.
#[tactic(auto, using(crate::proofs::Laws::run_more, crate::proofs::Laws::run_spent, crate::proofs::Laws::run_halted, crate::proofs::Laws::past_more, crate::proofs::Laws::past_spent, crate::proofs::Laws::past_halted, crate::proofs::Marked::told, crate::proofs::Marked::untold))]
pub fn reach_from(
    profile: Profile,
    start: State,
    mem: &mut [u8],
    events: &[u8],
    from: u32,
    budget: u32,
    reached: bool,
) -> Reached
    ensures { (result ≡ record { outcome = accepted (run_of profile (budget - from) from events.now start mem.old); past = reached || past_of profile (budget - from) from events.now start mem.old }) × (mem.new ≡ (run_of profile (budget - from) from events.now start mem.old).mem) }
{
    let mut s = start;
    let mut i = from;
    let mut past = reached;
    // The form of the plain run's loop, which the scope binds (docs/DECISIONS.md, Named forms).
    let stop = loop {
        if budget <= i || s.halt != 0 {
            break Stop {
                halt: s.halt,
                steps: i,
            };
        }
        s = step_marked(profile, s, mem, event_at(events, i));
        i += 1;
        // No function of marked: the edit never_tells_a_reach turns what is told here.
        if s.halt >= 8 {
            past = true;
            s = unmark(s);
        }
    };
    Reached {
        outcome: Outcome {
            state: s,
            halt: stop.halt,
            steps: stop.steps,
        },
        past,
    }
}

#[tactic(auto, unfolding(crate::specs::Outcome::run_outcome, crate::specs::Outcome::run_memory, crate::specs::Outcome::run_past))]
pub fn run_reach(
    profile: Profile,
    state: State,
    mem: &mut [u8],
    events: &[u8],
    budget: u32,
) -> Result<Reached, Refusal>
    ensures { (result ≡ told (run_outcome profile state mem.old events.now budget) (run_past profile state mem.old events.now budget)) × (mem.new ≡ run_memory profile state mem.old events.now budget) }
{
    check_run(profile, state, &mem[..], events, budget)?;
    Ok(reach_from(profile, state, mem, events, 0, budget, false))
}

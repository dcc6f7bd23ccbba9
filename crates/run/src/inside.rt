// The run that ends with the first step that reaches past its memory.
ghost use Rattle.std.specs.Prelude.{◌≡◌, ◌≤◌};
ghost use Rattle.run.specs.Run.{run_of, past_of, inside_of};
ghost use Rattle.run.specs.Outcome.{accepted, told, inside_outcome, inside_memory, run_past};

use crate::outcome::{Outcome, check_run};
use crate::reach::Reached;
use crate::run::event_at;
use insn::profile::Profile;
use machine::refusal::Refusal;
use machine::state::State;
use marked::mark::unmark;
use marked::step::step_marked;

// The run's loop: the mark of a reach ends it as a halt does, and is taken off behind it. A start with a
// halt code of 8 or more would be taken for marked. That is a clause and no type: one would be built at each call and taken apart at
// once, since a state inside the loop may be marked.
#[tactic(auto, using(crate::proofs::Marked::rest_more, crate::proofs::Marked::rest_past_more, crate::proofs::Marked::over_spent, crate::proofs::Marked::over_halted))]
fn accepted_inside(
    profile: Profile,
    start: State,
    mem: &mut [u8],
    events: &[u8],
    budget: u32,
) -> Reached
    requires { start.halt ≤ 5 }
    ensures { (result ≡ record { outcome = accepted (run_of profile (inside_of profile budget 0 events.now start mem.old) 0 events.now start mem.old); past = past_of profile budget 0 events.now start mem.old }) × (mem.new ≡ (run_of profile (inside_of profile budget 0 events.now start mem.old) 0 events.now start mem.old).mem) }
{
    let mut s = start;
    let mut i = 0;
    while i < budget && s.halt == 0 {
        s = step_marked(profile, s, mem, event_at(events, i));
        i += 1;
    }
    // No function of marked: the edit tells_only_a_reach_that_halts turns this test.
    let past = s.halt >= 8;
    if past {
        s = unmark(s);
    }
    Reached {
        outcome: Outcome {
            state: s,
            halt: s.halt,
            steps: i,
        },
        past,
    }
}

#[tactic(auto, using(crate::proofs::Laws::run_halt), unfolding(crate::specs::Outcome::inside_outcome, crate::specs::Outcome::inside_memory, crate::specs::Outcome::run_past))]
pub fn run_inside(
    profile: Profile,
    state: State,
    mem: &mut [u8],
    events: &[u8],
    budget: u32,
) -> Result<Reached, Refusal>
    ensures { (result ≡ told (inside_outcome profile state mem.old events.now budget) (run_past profile state mem.old events.now budget)) × (mem.new ≡ inside_memory profile state mem.old events.now budget) }
{
    check_run(profile, state, &mem[..], events, budget)?;
    Ok(accepted_inside(profile, state, mem, events, budget))
}

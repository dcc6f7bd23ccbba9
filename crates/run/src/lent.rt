// The single step over a lent state.
ghost use Rattle.std.specs.Prelude.{◌≡◌};
ghost use Rattle.insn.specs.declared.profile.Profile.{Profile};
ghost use Rattle.run.specs.Lent.{answer_of};
ghost use Rattle.run.specs.Outcome.{state_left, step_outcome, step_memory};

use crate::outcome::Stop;
use crate::run::step;
use insn::profile::Profile;
use machine::refusal::Refusal;
use machine::state::State;

// Answers as the step by value does, less the state, which stays where it was lent. A refused step stores nothing.
pub fn step_lent(state: &mut State, mem: &mut [u8], event: u8) -> Result<Stop, Refusal>
    ensures { (result ≡ answer_of (step_outcome Profile.Ppe42 state.old mem.old event)) × ((state.new ≡ state_left state.old (step_outcome Profile.Ppe42 state.old mem.old event)) × (mem.new ≡ step_memory Profile.Ppe42 state.old mem.old event)) }
{
    let outcome = step(Profile::Ppe42, *state, mem, event)?;
    *state = outcome.state;
    Ok(Stop {
        halt: outcome.halt,
        steps: outcome.steps,
    })
}

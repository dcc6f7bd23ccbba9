// The run by the engine that keeps decoded words. A kept word costs less to execute and one that is not found more, so a run that is
// short, or in which too many are not found, is played plain (docs/DECISIONS.md D47).
ghost use Rattle.std.specs.Prelude.{◌≡◌, ◌≤◌};
ghost use Rattle.run.specs.Outcome.{told, run_outcome, run_memory, run_past};
ghost use Rattle.engine.specs.Engine.{Leads};

use engine::kept::{Stretch, kept_stretch};
use insn::profile::Profile;
use machine::refusal::Refusal;
use machine::state::State;
use run::outcome::{Outcome, check_run};
use run::reach::{Reached, reach_from};
use run::run::run_from;

// What is played by kept words, if the run is long enough for that to pay. run::inside says why the start's halt code has a clause and
// no type.
fn begun(profile: Profile, start: State, mem: &mut [u8], events: &[u8], budget: u32) -> Stretch
    requires { start.halt ≤ 5 }
    ensures { Leads profile budget events.now start mem.old result mem.new }
{
    if budget < 16384 {
        return Stretch {
            state: start,
            steps: 0,
            past: false,
        };
    }
    kept_stretch(profile, start, mem, events, budget)
}

#[tactic(auto, using(run::proofs::Laws::run_halt), unfolding(run::specs::Outcome::run_outcome, run::specs::Outcome::run_memory))]
pub fn run_predecoded(
    profile: Profile,
    state: State,
    mem: &mut [u8],
    events: &[u8],
    budget: u32,
) -> Result<Outcome, Refusal>
    ensures { (result ≡ run_outcome profile state mem.old events.now budget) × (mem.new ≡ run_memory profile state mem.old events.now budget) }
{
    check_run(profile, state, &mem[..], events, budget)?;
    let first = begun(profile, state, mem, events, budget);
    Ok(run_from(profile, first.state, mem, events, first.steps, budget))
}

// The same run, told whether it reached past its memory.
#[tactic(auto, using(run::proofs::Laws::run_halt), unfolding(run::specs::Outcome::run_outcome, run::specs::Outcome::run_memory, run::specs::Outcome::run_past))]
pub fn run_predecoded_reach(
    profile: Profile,
    state: State,
    mem: &mut [u8],
    events: &[u8],
    budget: u32,
) -> Result<Reached, Refusal>
    ensures { (result ≡ told (run_outcome profile state mem.old events.now budget) (run_past profile state mem.old events.now budget)) × (mem.new ≡ run_memory profile state mem.old events.now budget) }
{
    check_run(profile, state, &mem[..], events, budget)?;
    let first = begun(profile, state, mem, events, budget);
    Ok(reach_from(
        profile,
        first.state,
        mem,
        events,
        first.steps,
        budget,
        first.past,
    ))
}

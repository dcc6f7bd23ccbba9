// The lines of a step before its word.
ghost use Rattle.std.specs.Prelude.{◌≡◌};
ghost use Rattle.machine.specs.Step.{highest_of};
ghost use Rattle.ready.specs.Ready.{awaited_of, ready_of};

use insn::profile::Profile;
use machine::state::State;
use word::bits::{Bit, bit_at};

// The state at the end of line 5, and whether line 6 is to come. (A ControlFlow of two states was tried: each step took 13 instructions
// more, and stores by kept words a tenth of their time.)
#[derive(Clone, Copy)]
pub struct Ready {
    pub state: State,
    pub runs: bool,
}

// Lines 4 and 5.
fn awaited(profile: Profile, state: State, event: u8) -> Ready
    ensures { result ≡ awaited_of profile state (highest_of state event) }
{
    match state.highest(event) {
        Some(v) => Ready {
            state: state.enter(profile, v),
            runs: false,
        },
        None => Ready {
            state,
            runs: !bit_at(state.msr, Bit(13)),
        },
    }
}

#[tactic(auto, unfolding(crate::specs::Ready::ready_of))]
pub fn readied(profile: Profile, state: State, event: u8) -> Ready
    ensures { result ≡ ready_of profile state event }
{
    let acts = state.acts(event);
    let ticked = state.tick(event);
    if acts {
        return Ready {
            state: ticked.act(),
            runs: false,
        };
    }
    awaited(profile, ticked, event)
}

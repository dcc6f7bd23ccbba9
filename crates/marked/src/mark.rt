// The mark of a reach past memory: a number in the halt code's place, since a flag beside the state is slower (docs/SPEED.md).
ghost use Rattle.std.specs.Prelude.{◌≡◌};
ghost use Rattle.marked.specs.Mark.{mark_for, marked_if, unmarked};

use machine::state::{Reg, State};

// A reach leaves the halt code 0 or 1, and no halt code is 8 or more.
fn mark_for(halt: u32) -> u32
    ensures { result ≡ mark_for halt }
{
    if halt == 0 { 8 } else { 9 }
}

#[tactic(auto, unfolding(crate::specs::Mark::marked))]
pub fn mark(state: State, past: bool) -> State
    ensures { result ≡ marked_if past state }
{
    if past {
        let halt = mark_for(state.halt);
        return state.set(Reg::Halt, halt);
    }
    state
}

#[tactic(auto, unfolding(crate::specs::Mark::unmarked))]
pub fn unmark(state: State) -> State
    ensures { result ≡ unmarked state }
{
    let halt = state.halt % 8;
    state.set(Reg::Halt, halt)
}

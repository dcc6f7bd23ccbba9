// What a step would do: which of its six lines it ends in, and how.
ghost use Rattle.std.specs.Prelude.{◌≡◌};
ghost use Rattle.tell.specs.Told.{told_of, vector_code, cause_code, code_of};

use crate::fault::running_raises;
use insn::profile::Profile;
use machine::interrupt::{Cause, Vector};
use machine::state::State;
use word::bits::{Bit, bit_at};

#[derive(Clone, Copy)]
pub enum Told {
    Halted,
    Acts,
    Takes(Vector),
    Waits,
    Executes,
    Faults(Cause),
}

// The lines in their order: a pending interrupt comes before the wait.
#[tactic(auto, unfolding(crate::specs::Told::told_of))]
pub fn tell(profile: Profile, state: State, mem: &[u8], event: u8) -> Told
    ensures { result ≡ told_of profile state mem.now event }
{
    if state.halt != 0 {
        return Told::Halted;
    }
    if state.acts(event) {
        return Told::Acts;
    }
    let ticked = state.tick(event);
    let pending = ticked.highest(event);
    if pending.is_none() & bit_at(ticked.msr, Bit(13)) {
        return Told::Waits;
    }
    if let Some(v) = pending {
        return Told::Takes(v);
    }
    match running_raises(profile, ticked, mem) {
        None => Told::Executes,
        Some(c) => Told::Faults(c),
    }
}

// A step takes only these four.
fn vector_code(v: Vector) -> u32
    ensures { result ≡ vector_code v }
{
    match v {
        Vector::External => 4,
        Vector::Decrementer => 5,
        Vector::FixedInterval => 6,
        Vector::Watchdog => 7,
        _ => 0,
    }
}

fn cause_code(c: Cause) -> u32
    ensures { result ≡ cause_code c }
{
    match c {
        Cause::DataStorage { .. } => 8,
        Cause::InstructionStorage => 9,
        Cause::Alignment { .. } => 10,
        Cause::Program { trap: false, .. } => 11,
        Cause::Program { trap: true, .. } => 12,
    }
}

// The number of include/ppe42.h.
impl From<Told> for u32 {
    ghost from_gives = { λ told number. number ≡ code_of told };

    fn from(told: Told) -> u32 {
        match told {
            Told::Halted => 0,
            Told::Acts => 3,
            Told::Takes(v) => vector_code(v),
            Told::Waits => 2,
            Told::Executes => 1,
            Told::Faults(c) => cause_code(c),
        }
    }
}

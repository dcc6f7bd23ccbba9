// Reading a capture: the memory part itself, and the state or the refusal.
ghost use Rattle.std.specs.Prelude.{◌≡◌};
ghost use Rattle.capture.specs.Read.{formed_of, read_of, part_of};

use crate::words::state_at;
use insn::profile::Profile;
use machine::refusal::Refusal;
use machine::state::State;
use memory::load::word_at;

// Whether it is long enough and ends in its trailer.
#[tactic(auto, unfolding(crate::specs::Read::formed_of))]
fn formed(file: &[u8]) -> bool
    ensures { result ≡ formed_of file.now }
{
    let len = file.len();
    if len < 188 {
        return false;
    }
    (word_at(file, len - 12) == 156)
        & (word_at(file, len - 8) as usize == len - 156)
        & (word_at(file, len - 4) == 1)
}

// The state, or the refusal: of the form (`Capture`), then of the start (`Memory`, `Iar`, `Reserved`).
#[tactic(auto, using(crate::proofs::Checks::formed_shows), unfolding(crate::specs::Read::read_of, crate::specs::Read::check_read, crate::specs::Read::state_in))]
pub fn state_of(profile: Profile, file: &[u8]) -> Result<State, Refusal>
    ensures { result ≡ read_of profile file.now }
{
    if !formed(file) {
        return Err(Refusal::Capture);
    }
    let size = file.len() - 156;
    let state = state_at(file, size);
    state.check_start(profile, size)?;
    Ok(state)
}

// The memory part itself, or an empty part.
#[tactic(auto, using(crate::proofs::Checks::read_accepts, crate::proofs::Checks::read_ok), unfolding(crate::specs::Read::part_of))]
pub fn memory_part(profile: Profile, file: &[u8]) -> &[u8]
    ensures { result.now ≡ part_of profile file.now }
{
    if state_of(profile, file).is_ok() {
        let end = file.len() - 156;
        &file[..end]
    } else {
        &file[..0]
    }
}

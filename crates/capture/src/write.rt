// Writing a capture: the memory, the state and the trailer, one after the other.
ghost use Rattle.std.specs.Prelude.{◌≡◌, ◌++◌, ◌+◌, ◌≤◌, length, drop};
ghost use Rattle.std.proofs.lemmas.List.Edits.{sets};
ghost use Rattle.capture.specs.Write.{capture_of, check_write, written_of, out_of};

use crate::words::{put_state, put_words};
use insn::profile::Profile;
use machine::refusal::Refusal;
use machine::state::State;

// Whether the start is accepted, as in reading, and then whether there is room (`Output`).
#[tactic(auto, unfolding(crate::specs::Write::check_write))]
fn check_write(profile: Profile, state: State, size: usize, room: usize) -> Result<(), Refusal>
    ensures { result ≡ check_write profile state size room }
{
    state.check_start(profile, size)?;
    if size + 156 <= room {
        Ok(())
    } else {
        Err(Refusal::Output)
    }
}

// Writes bytes from the front on. `copy_from_slice` would have the library ask for memmove from outside.
fn put_bytes(out: &mut [u8], bytes: &[u8])
    requires { length bytes.now ≤ length out.old }
    ensures { out.new ≡ sets out.old 0 bytes.now }
{
    for (i, b) in bytes.iter().enumerate() {
        out[i] = *b;
    }
}

// The whole capture, where there is room for it.
#[tactic(auto, using(crate::proofs::Laws::put_capture))]
fn put_capture(out: &mut [u8], state: State, memory: &[u8])
    requires memory_len_bound { length memory.now ≤ 1048576 }
    requires memory_in_bounds { length memory.now + 156 ≤ length out.old }
    ensures { out.new ≡ capture_of state memory.now ++ drop (length memory.now + 156) out.old }
{
    let size = memory.len();
    put_bytes(out, memory);
    put_state(out, size, state);
    let trailer = [156, size as u32, 1];
    put_words(out, size + 144, &trailer);
}

// Fills the first M + 156 bytes and no others, and says how many; a refusal stores nothing.
#[tactic(auto, using(crate::proofs::Checks::write_accepts), unfolding(crate::specs::Write::written_of, crate::specs::Write::out_of))]
pub fn write(
    profile: Profile,
    state: State,
    memory: &[u8],
    out: &mut [u8],
) -> Result<usize, Refusal>
    ensures { (result ≡ written_of profile state memory.now out.old) × (out.new ≡ out_of profile state memory.now out.old) }
{
    let size = memory.len();
    check_write(profile, state, size, out.len())?;
    put_capture(out, state, memory);
    Ok(size + 156)
}

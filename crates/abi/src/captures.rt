// Captures, checked and written.
ghost use Rattle.std.specs.Prelude.{◌≡◌, ◌<◌, ◌^◌, IfOk};
ghost use Rattle.abi.specs.Captures.{check_count, write_count, write_out};

use crate::answer::lent_state;
use insn::profile::Profile;
use machine::refusal::Refusal;

// The length of a capture's memory, or the refusal that reading it gives.
#[tactic(auto, using(crate::proofs::Laws::memory_small), unfolding(crate::specs::Captures::check_count))]
pub fn check(profile: Profile, file: &[u8]) -> Result<u64, Refusal>
    ensures value { result ≡ check_count profile file.now }
    ensures small { IfOk result (λ n. n < 2 ^ 32) }
{
    capture::read::state_of(profile, file)?;
    Ok(capture::read::memory_part(profile, file).len() as u64)
}

// A capture written into the first M + 156 bytes of the output.
#[tactic(auto, using(crate::proofs::Laws::bytes_small), unfolding(crate::specs::Answer::lent_of, crate::specs::Captures::write_count, crate::specs::Captures::write_out))]
pub fn write(profile: Profile, state: &[u8], memory: &[u8], out: &mut [u8]) -> Result<u64, Refusal>
    ensures value { (result ≡ write_count profile state.now memory.now out.old) × (out.new ≡ write_out profile state.now memory.now out.old) }
    ensures small { IfOk result (λ n. n < 2 ^ 32) }
{
    let start = lent_state(state)?;
    let bytes = capture::write::write(profile, start, memory, out)?;
    Ok(bytes as u64)
}

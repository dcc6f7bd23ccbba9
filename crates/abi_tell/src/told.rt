// What a step would do, and the data access that it would try.
ghost use Rattle.std.specs.Prelude.{◌≡◌};
ghost use Rattle.abi_tell.specs.Told.{tell_count, packed_of, access_packed};

use abi::answer::lent_state;
use insn::profile::Profile;
use machine::refusal::Refusal;
use run::outcome::check_step;
use tell::uses::Use;

// What that step would do, by its number.
#[tactic(auto, unfolding(abi::specs::Answer::lent_of, crate::specs::Told::tell_count))]
pub fn tell(profile: Profile, state: &[u8], memory: &[u8], event: u8) -> Result<u64, Refusal>
    ensures { result ≡ tell_count profile state.now memory.now event }
{
    let start = lent_state(state)?;
    check_step(profile, start, memory, event)?;
    let told = tell::told::tell(profile, start, memory, event);
    Ok(u64::from(u32::from(told)))
}

// An access: its first address, 2^32 times its length, and 2^63 for a write. A frame has two headers besides its doublewords.
fn pack(access: Option<Use>) -> u64
    ensures { result ≡ packed_of access }
{
    match access {
        None => 0,
        Some(Use::Reads { at, bytes }) => u64::from(bytes) * 0x1_0000_0000 + u64::from(at),
        Some(Use::Writes { at, bytes }) => {
            0x8000_0000_0000_0000 + (u64::from(bytes) * 0x1_0000_0000 + u64::from(at))
        }
        Some(Use::Pops { sp, n, .. }) => (u64::from(n) + 2) * 8 * 0x1_0000_0000 + u64::from(sp),
        Some(Use::Pushes { ea, n, .. }) => {
            0x8000_0000_0000_0000 + ((u64::from(n) + 2) * 8 * 0x1_0000_0000 + u64::from(ea))
        }
    }
}

// The data access that it would try.
#[tactic(auto, unfolding(abi::specs::Answer::lent_of, crate::specs::Told::access_packed))]
pub fn access(profile: Profile, state: &[u8], memory: &[u8], event: u8) -> Result<u64, Refusal>
    ensures { result ≡ access_packed profile state.now memory.now event }
{
    let start = lent_state(state)?;
    check_step(profile, start, memory, event)?;
    Ok(pack(tell::uses::used(profile, start, memory, event)))
}

// What C links of abi_tell: its functions that tell what a step would do, under the names that include/ppe42.h declares.
// Each stands twice, since the C interface has the core in a function's name.
#![tactic(auto)]

ghost use Rattle.std.specs.Prelude.{◌≡◌};
ghost use Rattle.insn.specs.declared.profile.Profile.{Profile};
ghost use Rattle.abi_tell.specs.Told.{tell_answer, access_answer};

use abi::answer::answer;
use insn::profile::Profile;

// What that step would do, by its number.
#[unsafe(no_mangle)]
pub extern "C" fn ppe42_tell(state: &[u8], memory: &[u8], event: u8) -> u64
    ensures { result ≡ tell_answer Profile.Ppe42 state.now memory.now event }
{
    answer(abi_tell::told::tell(Profile::Ppe42, state, memory, event))
}

// The data access that it would try.
#[unsafe(no_mangle)]
pub extern "C" fn ppe42_access(state: &[u8], memory: &[u8], event: u8) -> u64
    ensures { result ≡ access_answer Profile.Ppe42 state.now memory.now event }
{
    abi_tell::told::access(Profile::Ppe42, state, memory, event).unwrap_or(0)
}

// The same of a 42X.
#[unsafe(no_mangle)]
pub extern "C" fn ppe42x_tell(state: &[u8], memory: &[u8], event: u8) -> u64
    ensures { result ≡ tell_answer Profile.Ppe42x state.now memory.now event }
{
    answer(abi_tell::told::tell(Profile::Ppe42x, state, memory, event))
}

#[unsafe(no_mangle)]
pub extern "C" fn ppe42x_access(state: &[u8], memory: &[u8], event: u8) -> u64
    ensures { result ≡ access_answer Profile.Ppe42x state.now memory.now event }
{
    abi_tell::told::access(Profile::Ppe42x, state, memory, event).unwrap_or(0)
}

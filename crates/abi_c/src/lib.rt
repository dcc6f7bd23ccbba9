// What C links of abi: its functions of captures and S-records, under the names that include/ppe42.h declares.
// Those of captures stand twice, since the C interface has the core in a function's name.
#![tactic(auto)]

ghost use Rattle.std.specs.Prelude.{◌≡◌};
ghost use Rattle.insn.specs.declared.profile.Profile.{Profile};
ghost use Rattle.abi.specs.Captures.{check_answer, write_answer, write_out};
ghost use Rattle.abi.specs.Records.{srec_read_answer, srec_write_answer};
ghost use Rattle.srecord.specs.File.{memory_of};
ghost use Rattle.srecord.specs.Write.{out_of};

use abi::answer::answer;
use abi::records::rejected;
use insn::profile::Profile;

// The refusal that reading a capture gives, or the length of its memory.
#[unsafe(no_mangle)]
pub extern "C" fn ppe42_capture_check(file: &[u8]) -> u64
    ensures { result ≡ check_answer Profile.Ppe42 file.now }
{
    answer(abi::captures::check(Profile::Ppe42, file))
}

// A capture written into the first M + 156 bytes of the output.
#[unsafe(no_mangle)]
pub extern "C" fn ppe42_capture_write(state: &[u8], memory: &[u8], out: &mut [u8]) -> u64
    ensures { (result ≡ write_answer Profile.Ppe42 state.now memory.now out.old) × (out.new ≡ write_out Profile.Ppe42 state.now memory.now out.old) }
{
    answer(abi::captures::write(Profile::Ppe42, state, memory, out))
}

// The same of a 42X.
#[unsafe(no_mangle)]
pub extern "C" fn ppe42x_capture_check(file: &[u8]) -> u64
    ensures { result ≡ check_answer Profile.Ppe42x file.now }
{
    answer(abi::captures::check(Profile::Ppe42x, file))
}

#[unsafe(no_mangle)]
pub extern "C" fn ppe42x_capture_write(state: &[u8], memory: &[u8], out: &mut [u8]) -> u64
    ensures { (result ≡ write_answer Profile.Ppe42x state.now memory.now out.old) × (out.new ≡ write_out Profile.Ppe42x state.now memory.now out.old) }
{
    answer(abi::captures::write(Profile::Ppe42x, state, memory, out))
}

// A file of S-records read into memory: the refusal, and the line that it is given for.
#[unsafe(no_mangle)]
pub extern "C" fn ppe42_srec_read(memory: &mut [u8], file: &[u8]) -> u64
    ensures { (result ≡ srec_read_answer memory.old file.now) × (memory.new ≡ memory_of memory.old file.now) }
{
    rejected(srecord::read::read(memory, file))
}

// Memory written as S-records into the first bytes of the output.
#[unsafe(no_mangle)]
pub extern "C" fn ppe42_srec_write(memory: &[u8], out: &mut [u8]) -> u64
    ensures { (result ≡ srec_write_answer memory.now out.old) × (out.new ≡ out_of memory.now out.old) }
{
    answer(abi::records::write(memory, out))
}

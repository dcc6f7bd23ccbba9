// S-records, read and written.
ghost use Rattle.std.specs.Prelude.{◌≡◌, ◌<◌, ◌^◌, IfOk};
ghost use Rattle.abi.specs.Records.{rejected_of};
ghost use Rattle.srecord.specs.Write.{written_of, out_of};

use crate::answer::refused;
use machine::refusal::Refusal;
use srecord::check::Rejected;

// What reading a file answers: the refusal, and the line that it is given for.
pub fn rejected(read: Result<(), Rejected>) -> u64
    ensures { result ≡ rejected_of read }
{
    match read {
        Ok(()) => 0,
        Err(rejected) => refused(rejected.refusal, rejected.line.min(0xFFFF_FFFF) as u32),
    }
}

// Memory written as S-records into the first bytes of the output, which are counted.
#[tactic(auto, using(crate::proofs::Laws::srec_small))]
pub fn write(memory: &[u8], out: &mut [u8]) -> Result<u64, Refusal>
    ensures value { (result ≡ written_of memory.now out.old) × (out.new ≡ out_of memory.now out.old) }
    ensures small { IfOk result (λ n. n < 2 ^ 32) }
{
    let bytes = srecord::write::write(memory, out)?;
    Ok(bytes as u64)
}

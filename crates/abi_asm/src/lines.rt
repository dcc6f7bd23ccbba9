// A line as its word, and a word as its line.
ghost use Rattle.std.specs.Prelude.{◌≡◌, ◌≤◌, ◌*◌, ◌+◌, ◌^◌};
ghost use Rattle.insn.specs.Read.{decode_on};
ghost use Rattle.abi_asm.specs.Lines.{Assembles, listed_answer};
ghost use Rattle.asm.specs.Listing.{listed_of, listed_out};

use asm::assemble::Refused;
use asm::disassemble::{Listing, Unlisted};
use insn::profile::Profile;

// A refusal and a column in their places.
fn refused(refusal: u64, column: usize) -> u64
    requires { (refusal ≤ 12) × (column ≤ 256) }
    ensures { result ≡ refusal * 2 ^ 48 + column * 2 ^ 32 }
{
    refusal * 0x1_0000_0000_0000 + column as u64 * 0x1_0000_0000
}

// A line as its word: the refusal times 2^48, the column times 2^32, the word.
#[tactic(auto, using(asm::proofs::Columns::answer_small))]
pub fn assemble(profile: Profile, line: &[u8]) -> u64
    ensures { Assembles profile line.now result }
{
    match asm::assemble::assemble(profile, line) {
        Ok(word) => u64::from(word),
        Err(Refused::Operands) => refused(6, 0),
        Err(Refused::Grammar(stuck)) => refused(11, stuck.column),
        Err(Refused::Value(off)) => refused(12, off.column),
    }
}

// A word as its line, in the first bytes of the output.
#[tactic(auto, using(crate::proofs::Laws::listed_fits))]
pub fn disassemble(profile: Profile, word: u32, out: &mut [u8]) -> u64
    ensures { (result ≡ listed_answer (listed_of (decode_on profile word) out.old)) × (out.new ≡ listed_out (decode_on profile word) out.old) }
{
    match asm::disassemble::disassemble(profile, word, out) {
        Ok(Listing { bytes, more: false }) => 0x1_0000_0000 + bytes as u64,
        Ok(Listing { bytes, more: true }) => 0x3_0000_0000 + bytes as u64,
        Err(Unlisted::Short) => 0x8_0000_0000_0000,
        Err(Unlisted::Illegal) => 0,
    }
}

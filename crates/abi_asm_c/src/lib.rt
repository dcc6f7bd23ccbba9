// What C links of abi_asm: its functions of words and lines of assembly, under the names that include/ppe42.h declares.
// Each stands twice, since the C interface has the core in a function's name.
#![tactic(auto)]

ghost use Rattle.std.specs.Prelude.{◌≡◌};
ghost use Rattle.insn.specs.Read.{decode_on};
ghost use Rattle.insn.specs.declared.profile.Profile.{Profile};
ghost use Rattle.abi_asm.specs.Words.{legal_of, rewrite_of};
ghost use Rattle.abi_asm.specs.Lines.{Assembles, listed_answer};
ghost use Rattle.asm.specs.Listing.{listed_of, listed_out};

use insn::profile::Profile;

// 1 for a legal word, 0 for an illegal one.
#[unsafe(no_mangle)]
pub extern "C" fn ppe42_legal(word: u32) -> u32
    ensures { result ≡ legal_of (decode_on Profile.Ppe42 word) }
{
    abi_asm::words::legal(Profile::Ppe42, word)
}

// 2^32 plus the word that reading and then writing gives, or 0 for an illegal one.
#[unsafe(no_mangle)]
pub extern "C" fn ppe42_rewrite(word: u32) -> u64
    ensures { result ≡ rewrite_of Profile.Ppe42 (decode_on Profile.Ppe42 word) }
{
    abi_asm::words::rewrite(Profile::Ppe42, word)
}

// A line as its word: the refusal times 2^48, the column times 2^32, the word.
#[unsafe(no_mangle)]
pub extern "C" fn ppe42_assemble(line: &[u8]) -> u64
    ensures { Assembles Profile.Ppe42 line.now result }
{
    abi_asm::lines::assemble(Profile::Ppe42, line)
}

// A word as its line, in the first bytes of the output.
#[unsafe(no_mangle)]
pub extern "C" fn ppe42_disassemble(word: u32, out: &mut [u8]) -> u64
    ensures { (result ≡ listed_answer (listed_of (decode_on Profile.Ppe42 word) out.old)) × (out.new ≡ listed_out (decode_on Profile.Ppe42 word) out.old) }
{
    abi_asm::lines::disassemble(Profile::Ppe42, word, out)
}

// The same of a 42X.
#[unsafe(no_mangle)]
pub extern "C" fn ppe42x_legal(word: u32) -> u32
    ensures { result ≡ legal_of (decode_on Profile.Ppe42x word) }
{
    abi_asm::words::legal(Profile::Ppe42x, word)
}

#[unsafe(no_mangle)]
pub extern "C" fn ppe42x_rewrite(word: u32) -> u64
    ensures { result ≡ rewrite_of Profile.Ppe42x (decode_on Profile.Ppe42x word) }
{
    abi_asm::words::rewrite(Profile::Ppe42x, word)
}

#[unsafe(no_mangle)]
pub extern "C" fn ppe42x_assemble(line: &[u8]) -> u64
    ensures { Assembles Profile.Ppe42x line.now result }
{
    abi_asm::lines::assemble(Profile::Ppe42x, line)
}

#[unsafe(no_mangle)]
pub extern "C" fn ppe42x_disassemble(word: u32, out: &mut [u8]) -> u64
    ensures { (result ≡ listed_answer (listed_of (decode_on Profile.Ppe42x word) out.old)) × (out.new ≡ listed_out (decode_on Profile.Ppe42x word) out.old) }
{
    abi_asm::lines::disassemble(Profile::Ppe42x, word, out)
}

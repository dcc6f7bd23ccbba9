// Whether a word is legal, and what writing gives.
ghost use Rattle.std.specs.Prelude.{◌≡◌};
ghost use Rattle.insn.specs.Read.{decode_on};
ghost use Rattle.abi_asm.specs.Words.{legal_of, rewrite_of};

use insn::profile::Profile;
use insn::read::read;
use insn::write::write;

// 1 for a legal word, 0 for an illegal one.
pub fn legal(profile: Profile, word: u32) -> u32
    ensures { result ≡ legal_of (decode_on profile word) }
{
    u32::from(read(profile, word).is_some())
}

// 2^32 plus the word that reading and then writing gives, or 0 for an illegal one.
pub fn rewrite(profile: Profile, word: u32) -> u64
    ensures { result ≡ rewrite_of profile (decode_on profile word) }
{
    match read(profile, word) {
        Some(i) => 0x1_0000_0000 + u64::from(write(profile, i).unwrap_or(0)),
        None => 0,
    }
}

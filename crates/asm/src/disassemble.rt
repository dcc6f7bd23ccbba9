// A word as its line.
ghost use Rattle.std.specs.Prelude.{◌≡◌};
ghost use Rattle.insn.specs.Read.{decode_on};
ghost use Rattle.asm.specs.Listing.{listed_of, listed_out};

use crate::operands::{is_plain, queue_of};
use insn::profile::Profile;
use syntax::row::row_of;
use syntax::table::print_row;

// The bytes of the line, and whether a field that it does not write is set.
#[derive(Clone, Copy)]
pub struct Listing {
    pub bytes: usize,
    pub more: bool,
}

// The output has under 64 bytes; or the word is illegal.
#[derive(Clone, Copy, PartialEq, Eq, Debug)]
pub enum Unlisted {
    Short,
    Illegal,
}

pub fn disassemble(profile: Profile, word: u32, out: &mut [u8]) -> Result<Listing, Unlisted>
    ensures { (result ≡ listed_of (decode_on profile word) out.old) × (out.new ≡ listed_out (decode_on profile word) out.old) }
{
    if out.len() < 64 {
        return Err(Unlisted::Short);
    }
    let i = insn::read::read(profile, word).ok_or(Unlisted::Illegal)?;
    Ok(Listing {
        bytes: print_row(out, row_of(i), queue_of(i)),
        more: !is_plain(i),
    })
}

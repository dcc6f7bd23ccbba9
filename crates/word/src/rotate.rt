// ROTL, MASK, and a word put into another under a mask.
ghost use Rattle.std.specs.Prelude.{◌≡◌, cond, ◌<◌, leb};
ghost use Rattle.word.specs.Bits.{IsBit, IsPart};
ghost use Rattle.word.specs.Rotate.{rotl, mask, under, put_at};

use crate::bits::{Bit, Shift, field_at, shift_of};
use crate::shift::right;

pub fn rotate_left(x: u32, n: Shift) -> u32
    requires { n.0 < 32 }
    ensures { result ≡ rotl x n.0 }
{
    (x << n.0) | right(x, Shift(32 - n.0))
}

// Ones from bit i to bit j, none where j comes first: those to bit j but for those before bit i.
#[tactic(auto, using(crate::proofs::Masks::made_is))]
fn ones(i: Bit, j: Bit) -> u32
    requires { IsBit i × IsBit j }
    ensures { result ≡ cond (leb i.0 j.0) (mask i.0 j.0) 0 }
{
    let to_j = 0xFFFF_FFFFu32 << shift_of(j).0;
    let before_i = 0xFFFF_FFFEu32 << shift_of(i).0;
    to_j & !before_i
}

// MASK(MB, ME): ones from bit MB to bit ME, going round past bit 31 when MB is larger.
#[tactic(auto, using(crate::proofs::Masks::round_is))]
pub fn mask_of(mb: Bit, me: Bit) -> u32
    requires { IsBit mb × IsBit me }
    ensures { result ≡ mask mb.0 me.0 }
{
    // both come before the choice, which then takes no jump
    let straight = ones(mb, me);
    let round = ones(mb, Bit(31)) | ones(Bit(0), me);
    if mb.0 > me.0 { round } else { straight }
}

// x where the mask has ones, y elsewhere.
pub fn insert(m: u32, x: u32, y: u32) -> u32
    ensures { result ≡ under m x y }
{
    (x & m) | (y & !m)
}

// The word with a value in its bits i to j, and the rest as it was.
#[tactic(auto, unfolding(crate::specs::Rotate::put_at))]
pub fn put_at(word: u32, i: Bit, j: Bit, value: u32) -> u32
    requires { IsPart i j }
    ensures { result ≡ put_at word i.0 j.0 value }
{
    insert(mask_of(i, j), field_at(i, j, value), word)
}

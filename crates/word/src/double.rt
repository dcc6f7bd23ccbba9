// Doublewords of 64 bits: ROTL, MASK, insertion under a mask, and CR0 after a result. The functions of a word stand beside these: one for
// both would need the operators as bounds with their laws, and its clauses (`under`, `under64` ..) are definitions of their own.
ghost use Rattle.std.specs.Prelude.{◌≡◌, ◌-◌, ◌%◌, ◌<◌};
ghost use Rattle.word.specs.Double.{rotl64, mask64, under64, recorded64};

use crate::bits::{Bit, Shift, shift_of};
use crate::compare::cr0_of;

// Rotated left by the six low bits of n.
#[tactic(auto, using(crate::proofs::Doubles::rotated))]
pub fn rotate_double(x: u64, n: u8) -> u64
    ensures { result ≡ rotl64 x (n % 64) }
{
    let left = n % 64;
    // where nothing leaves on the left, x itself comes in, which is there already
    (x << left) | (x >> ((64 - left) % 64))
}

// How far bit b stands from the right: those of the first word stand 32 higher.
fn double_shift_of(b: u8) -> Shift
    requires { b < 64 }
    ensures { result.0 ≡ 63 - b }
{
    if b < 32 {
        Shift(shift_of(Bit(b)).0 + 32)
    } else {
        shift_of(Bit(b - 32))
    }
}

// Ones from bit b to the last.
#[tactic(auto, using(crate::proofs::Doubles::from_is))]
fn ones_from(b: u8) -> u64
    requires { b < 64 }
    ensures { result ≡ mask64 b 63 }
{
    !(0xFFFF_FFFF_FFFF_FFFEu64 << double_shift_of(b).0)
}

// Ones from the first bit to bit b.
#[tactic(auto, using(crate::proofs::Doubles::to_is))]
fn ones_to(b: u8) -> u64
    requires { b < 64 }
    ensures { result ≡ mask64 0 b }
{
    0xFFFF_FFFF_FFFF_FFFFu64 << double_shift_of(b).0
}

// MASK(MB, ME), the bits named by six-bit fields.
#[tactic(auto, using(crate::proofs::Doubles::straight64, crate::proofs::Doubles::round64))]
pub fn mask_double(mb: u8, me: u8) -> u64
    ensures { result ≡ mask64 (mb % 64) (me % 64) }
{
    let from_mb = ones_from(mb % 64);
    let to_me = ones_to(me % 64);
    if mb % 64 > me % 64 {
        from_mb | to_me
    } else {
        from_mb & to_me
    }
}

// x where the mask has ones, y elsewhere.
pub fn insert_double(m: u64, x: u64, y: u64) -> u64
    ensures { result ≡ under64 m x y }
{
    (x & m) | (y & !m)
}

// CR0 after an instruction that records its doubleword.
pub fn record_double(res: u64, so: bool) -> u32
    ensures { result ≡ recorded64 res so }
{
    let negative = res >= 0x8000_0000_0000_0000;
    let zero = res == 0;
    cr0_of(negative, !zero & !negative, zero, so)
}

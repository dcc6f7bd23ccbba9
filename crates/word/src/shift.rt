// Shifts by the six low bits of a register.
ghost use Rattle.std.specs.Prelude.{◌≡◌, cond, ◌^◌};
ghost use Rattle.word.specs.Bits.{IsShift};
ghost use Rattle.word.specs.Shift.{shift_in, slw, srw, sraw};

use crate::bits::Shift;

// A shifted word, and the carry of a signed shift.
#[derive(Clone, Copy)]
pub struct Shifted {
    pub value: u32,
    pub carry: bool,
}

// The amount that a register holds: its bits 26 to 31.
pub fn amount(x: u32) -> Shift
    ensures { result ≡ shift_in x }
{
    Shift((x % 64) as u8)
}

pub fn left(x: u32, n: Shift) -> u32
    requires { IsShift n }
    ensures { result ≡ slw x n.0 }
{
    (((x as u64) << n.0) % 0x1_0000_0000) as u32
}

pub fn right(x: u32, n: Shift) -> u32
    requires { IsShift n }
    ensures { result ≡ srw x n.0 }
{
    ((x as u64) >> n.0) as u32
}

// a where c holds, else b.
pub fn select(c: bool, a: u32, b: u32) -> u32
    ensures { result ≡ cond c a b }
{
    if c { a } else { b }
}

fn power(n: Shift) -> u64
    requires { IsShift n }
    ensures { result ≡ 2 ^ n.0 }
{
    1u64 << n.0
}

pub fn right_signed(x: u32, n: Shift) -> Shifted
    requires { IsShift n }
    ensures { result ≡ sraw x n.0 }
{
    let negative = x >= 0x8000_0000;
    Shifted {
        value: select(negative, !right(!x, n), right(x, n)),
        carry: negative & (x as u64 % power(n) != 0),
    }
}

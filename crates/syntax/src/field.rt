// What the field of an operand holds.
ghost use Rattle.std.specs.Prelude.{◌≡◌, ◌≤◌, ◌^◌, Ok};
ghost use Rattle.syntax.specs.Worth.{below, signed_code, unsigned_code, target_code, frame_code, code_of};
ghost use Rattle.syntax.specs.Inside.{range_in};
ghost use Rattle.syntax.specs.declared.field.Misfit.{Misfit};

use crate::slot::Number;
use expr::Off;

// Why a field has no contents: the operand does not fit, or a value in it is outside -2^31 to 2^31 - 1.
#[derive(Clone, Copy, PartialEq, Eq, Debug)]
pub enum Misfit {
    Unfit,
    Off(Off),
}

impl From<Off> for Misfit {
    ghost from_gives = { λ off misfit. misfit ≡ Misfit.Off off };

    fn from(off: Off) -> Misfit {
        Misfit::Off(off)
    }
}

pub type Field = Result<u32, Misfit>;

pub fn below_limit(limit: u64, n: u64) -> Field
    requires { limit ≤ 2 ^ 32 }
    ensures { result ≡ below limit n }
{
    if n < limit {
        Ok(n as u32)
    } else {
        Err(Misfit::Unfit)
    }
}

// Two's complement in a field of 2 * h values.

#[tactic(auto, using(crate::proofs::Codes::signed_up, crate::proofs::Codes::signed_down, crate::proofs::Codes::signed_not))]
fn signed_code(h: u64, v: i32) -> Field
    requires { h ≤ 2 ^ 31 }
    ensures { result ≡ signed_code h (Ok v) }
{
    let n = u64::from(v.unsigned_abs());
    if 0 <= v {
        below_limit(h, n)
    } else if n <= h {
        Ok((2 * h - n) as u32)
    } else {
        Err(Misfit::Unfit)
    }
}

#[tactic(auto, using(crate::proofs::Codes::unsigned_up, crate::proofs::Codes::unsigned_down))]
fn unsigned_code(m: u64, v: i32) -> Field
    requires { m ≤ 2 ^ 32 }
    ensures { result ≡ unsigned_code m (Ok v) }
{
    if 0 <= v {
        below_limit(m, u64::from(v.unsigned_abs()))
    } else {
        Err(Misfit::Unfit)
    }
}

// A number of words.
#[tactic(auto, using(crate::proofs::Codes::target_whole, crate::proofs::Codes::target_part))]
fn target_code(h: u64, v: i32) -> Field
    requires { h ≤ 2 ^ 31 }
    ensures { result ≡ target_code h (Ok v) }
{
    if v.rem_euclid(4) == 0 {
        signed_code(h, v.div_euclid(4))
    } else {
        Err(Misfit::Unfit)
    }
}

// A number of doublewords, of bytes whose last three bits are dropped.
#[tactic(auto, using(crate::proofs::Codes::frame_rounded))]
fn frame_code(h: u64, v: i32) -> Field
    requires { h ≤ 2 ^ 31 }
    ensures { result ≡ frame_code h (Ok v) }
{
    signed_code(h, v.div_euclid(8))
}

fn word_code(number: Number, v: i32) -> Field
    ensures { result ≡ code_of (range_in number) (Ok v) }
{
    match number {
        Number::Signed => signed_code(0x8000, v),
        Number::Unsigned => unsigned_code(0x1_0000, v),
        Number::Five => unsigned_code(32, v),
        Number::Six => unsigned_code(64, v),
        Number::Two => unsigned_code(4, v),
        Number::Ten => unsigned_code(1024, v),
        Number::One => unsigned_code(2, v),
        Number::Frame => frame_code(0x1000, v),
        Number::Branch => target_code(0x80_0000, v),
        Number::Conditional => target_code(0x2000, v),
    }
}

// Of every number: one of more than 32 bits fits no field.
#[tactic(auto, using(crate::proofs::Codes::code_below, crate::proofs::Codes::code_above))]
fn wide_code(number: Number, v: i128) -> Field
    ensures { result ≡ code_of (range_in number) (Ok v) }
{
    if v < -0x8000_0000 {
        return Err(Misfit::Unfit);
    }
    if 0x8000_0000 <= v {
        return Err(Misfit::Unfit);
    }
    word_code(number, v as i32)
}

#[tactic(auto, using(crate::proofs::Codes::code_off))]
pub fn number_code(number: Number, v: Result<i128, Off>) -> Field
    ensures { result ≡ code_of (range_in number) v }
{
    wide_code(number, v?)
}

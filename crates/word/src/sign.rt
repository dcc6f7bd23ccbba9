// EXTS: a number of fewer bits, extended on the left with its sign bit.
ghost use Rattle.std.specs.Prelude.{◌≡◌, ◌^◌, ◌<◌};
ghost use Rattle.word.specs.Sign.{exts};

pub fn extend_byte(b: u8) -> u32
    ensures { result ≡ exts 8 b }
{
    i32::from(b.cast_signed()).cast_unsigned()
}

pub fn extend_half(h: u16) -> u32
    ensures { result ≡ exts 16 h }
{
    i32::from(h.cast_signed()).cast_unsigned()
}

// The displacement of b, LI and two zero bits.
pub fn extend_26(d: u32) -> u32
    requires { d < 2 ^ 26 }
    ensures { result ≡ exts 26 d }
{
    if d < 0x200_0000 { d } else { d + 0xFC00_0000 }
}

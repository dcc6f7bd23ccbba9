// Products of two words and of their low halfwords.
ghost use Rattle.std.specs.Prelude.{◌≡◌, ◌%◌, ◌^◌, nat_abs};
ghost use Rattle.word.specs.Multiply.{mullhw, mullhwu, low_word, mullw};
ghost use Rattle.word.specs.Sign.{signed};

use crate::sign::extend_half;

// The low word of a product, and whether the signed product has no word.
#[derive(Clone, Copy)]
pub struct Product {
    pub value: u32,
    pub overflow: bool,
}

fn low_half(a: u32) -> u16
    ensures { result ≡ a % 2 ^ 16 }
{
    (a % 0x1_0000) as u16
}

pub fn low_signed(a: u32, b: u32) -> u32
    ensures { result ≡ mullhw a b }
{
    extend_half(low_half(a)).wrapping_mul(extend_half(low_half(b)))
}

pub fn low_unsigned(a: u32, b: u32) -> u32
    ensures { result ≡ mullhwu a b }
{
    (a % 0x1_0000) * (b % 0x1_0000)
}

// The low word of a product: mulli, and mullw without its overflow.
pub fn low_word(a: u32, b: u32) -> u32
    ensures { result ≡ low_word a b }
{
    a.wrapping_mul(b)
}

// The number that a word stands for, without its sign.
fn magnitude(x: u32) -> u32
    ensures { result ≡ nat_abs (signed x) }
{
    x.cast_signed().unsigned_abs()
}

pub fn multiply(a: u32, b: u32) -> Product
    ensures { result ≡ mullw a b }
{
    let size = magnitude(a) as u64 * magnitude(b) as u64;
    let opposite = (a < 0x8000_0000) != (b < 0x8000_0000);
    // of the two products of size 2^31 the negative one has a word
    let least_out = 0x8000_0000 + opposite as u64;
    Product {
        value: low_word(a, b),
        overflow: size >= least_out,
    }
}

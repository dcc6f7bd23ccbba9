// The logical operations of two words, and the count of leading zeros.
ghost use Rattle.std.specs.Prelude.{◌≡◌};
ghost use Rattle.std.specs.Int.Bits.{bit_and, bit_or, bit_xor};
ghost use Rattle.word.specs.Logical.{inv, cntlzw};

pub fn and(a: u32, b: u32) -> u32
    ensures { result ≡ bit_and a b }
{
    a & b
}

pub fn or(a: u32, b: u32) -> u32
    ensures { result ≡ bit_or a b }
{
    a | b
}

pub fn xor(a: u32, b: u32) -> u32
    ensures { result ≡ bit_xor a b }
{
    a ^ b
}

pub fn nand(a: u32, b: u32) -> u32
    ensures { result ≡ inv (bit_and a b) }
{
    !(a & b)
}

pub fn nor(a: u32, b: u32) -> u32
    ensures { result ≡ inv (bit_or a b) }
{
    !(a | b)
}

pub fn eqv(a: u32, b: u32) -> u32
    ensures { result ≡ inv (bit_xor a b) }
{
    !(a ^ b)
}

pub fn andc(a: u32, b: u32) -> u32
    ensures { result ≡ bit_and a (inv b) }
{
    a & !b
}

pub fn orc(a: u32, b: u32) -> u32
    ensures { result ≡ bit_or a (inv b) }
{
    a | !b
}

// How many zeros stand left of the first one.
pub fn count_zeros(x: u32) -> u32
    ensures { result ≡ cntlzw x }
{
    u32::leading_zeros(x)
}

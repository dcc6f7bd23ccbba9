// Bit numbers count from the left and shift amounts from the right; only `shift_of` goes from one to the other.
ghost use Rattle.std.specs.Prelude.{◌≡◌, ◌+◌, ◌-◌, ◌^◌, ◌<◌};
ghost use Rattle.word.specs.Bits.{IsBit, IsPart, bit_of, shift_of, bit_at, bits_at, field_at, digit};

// The number of a bit of a word: 0 is the most significant. That it is below 32 stands in the clauses (`IsBit`, `IsPart`, and `IsShift` of
// a shift): a tuple struct has no ghost field, and a `Copy` one with an `impl Model` and its `inverse` proves, but is a bare number in each
// clause and definition, where `bit_of` and `shift_of` then no longer tell a bit from a shift.
#[derive(Clone, Copy)]
pub struct Bit(pub u8);

// How far a word is shifted or rotated to the left or to the right.
#[derive(Clone, Copy)]
pub struct Shift(pub u8);

impl Bit {
    // The bit that a five-bit field names.
    pub fn of(n: u8) -> Bit
        ensures { result ≡ bit_of n }
    {
        Bit(n % 32)
    }
}

// How far bit b stands from the right.
pub fn shift_of(b: Bit) -> Shift
    requires { IsBit b }
    ensures { result ≡ shift_of b }
{
    Shift(31 - b.0)
}

// Bit b of a word.
pub fn bit_at(word: u32, b: Bit) -> bool
    requires { IsBit b }
    ensures { result ≡ bit_at word b.0 }
{
    (word >> shift_of(b).0) % 2 == 1
}

// How many values bits i to j can take.
fn size_of(i: Bit, j: Bit) -> u32
    requires { IsPart i j }
    ensures { result ≡ 2 ^ (j.0 - i.0 + 1) }
{
    1u32 << (shift_of(i).0 - shift_of(j).0 + 1)
}

// Bits i to j of a word, as a number.
pub fn bits_at(word: u32, i: Bit, j: Bit) -> u32
    requires { IsPart i j }
    ensures { result ≡ bits_at word i.0 j.0 }
{
    (word >> shift_of(j).0) % size_of(i, j)
}

// The word that has the value's last bits in its bits i to j.
#[tactic(auto, using(crate::proofs::Laws::field_fits))]
pub fn field_at(i: Bit, j: Bit, value: u32) -> u32
    requires { IsPart i j }
    ensures { result ≡ field_at i.0 j.0 value }
{
    (value % size_of(i, j)) << shift_of(j).0
}

// A bool as a bit.
pub fn digit_of(b: bool) -> u32
    ensures value { result ≡ digit b }
    ensures small { result < 2 }
{
    b as u32
}

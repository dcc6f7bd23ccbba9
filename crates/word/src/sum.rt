// A sum of two words and a carry: every add, subtract and negate of 9.4 is one.
ghost use Rattle.std.specs.Prelude.{◌≡◌, ◌+◌, ◌%◌, ◌^◌};
ghost use Rattle.word.specs.Sum.{sum_of};

#[derive(Clone, Copy)]
pub struct Sum {
    pub value: u32,
    pub carry: bool,
    pub overflow: bool,
}

pub fn add(a: u32, b: u32, carry: bool) -> Sum
    ensures { result ≡ sum_of a b carry }
{
    let total = a as u64 + b as u64 + carry as u64;
    let low = a % 0x8000_0000 + b % 0x8000_0000 + carry as u32;
    let out = total >= 0x1_0000_0000;
    Sum {
        value: (total % 0x1_0000_0000) as u32,
        carry: out,
        overflow: (low >= 0x8000_0000) != out,
    }
}

// The sum alone, modulo 2^32.
pub fn plus(a: u32, b: u32) -> u32
    ensures { result ≡ (a + b) % 2 ^ 32 }
{
    a.wrapping_add(b)
}

// CR0 after a compare and after a result: LT, GT, EQ and SO as four bits.
ghost use Rattle.std.specs.Prelude.{◌≡◌};
ghost use Rattle.word.specs.Compare.{cr0, less_signed, compared_signed, compared_unsigned, recorded};

use crate::bits::digit_of;

// The four bits from the left: less, greater, equal, summary overflow.
pub fn cr0_of(lt: bool, gt: bool, eq: bool, so: bool) -> u32
    ensures { result ≡ cr0 lt gt eq so }
{
    digit_of(lt) * 8 + digit_of(gt) * 4 + digit_of(eq) * 2 + digit_of(so)
}

pub fn less_signed(a: u32, b: u32) -> bool
    ensures { result ≡ less_signed a b }
{
    a.cast_signed() < b.cast_signed()
}

// CR0 after cmpw and cmpwi.
pub fn compare_signed(a: u32, b: u32, so: bool) -> u32
    ensures { result ≡ compared_signed a b so }
{
    cr0_of(less_signed(a, b), less_signed(b, a), a == b, so)
}

// CR0 after cmplw and cmplwi.
pub fn compare_unsigned(a: u32, b: u32, so: bool) -> u32
    ensures { result ≡ compared_unsigned a b so }
{
    cr0_of(a < b, b < a, a == b, so)
}

// CR0 after an instruction that records its result.
pub fn record_of(res: u32, so: bool) -> u32
    ensures { result ≡ recorded res so }
{
    let negative = res >= 0x8000_0000;
    let zero = res == 0;
    cr0_of(negative, !zero & !negative, zero, so)
}

// Bytes spelt by hex digits, in a lent file. They are looked up by places of the file, not by parts of it, since the definitions
// (`pair_at`, `bytes_at`, `record_at`) count places from its start.
ghost use Rattle.std.specs.Prelude.{◌≡◌, ◌+◌, ◌*◌, ◌≤◌, length};
ghost use Rattle.srecord.specs.Hex.{letter_of, digit_of, pair_at, bytes_at, number_from};
ghost use Rattle.srecord.specs.Found.{some_but, sum_in};

// The value of a letter that is a hex digit, 16 for any other character. With 32 a letter is lower-case, and 159 is 256 less `a`.
#[tactic(auto, using(crate::proofs::Spelt::letter_yes, crate::proofs::Spelt::letter_no))]
fn letter(c: u8) -> u32
    ensures { result ≡ letter_of c }
{
    let place = ((c | 32) as u32 + 159) % 256;
    if place < 6 { place + 10 } else { 16 }
}

// The value of a hex digit, 16 for any other character. 208 is 256 less `0`; both answers are made first, so that none is jumped to.
// That is why it is no Option, with which each digit is jumped to and a file takes 2.7 times as long to read.
#[tactic(auto, using(crate::proofs::Spelt::digit_yes, crate::proofs::Spelt::digit_no))]
fn digit(c: u8) -> u32
    ensures { result ≡ digit_of c }
{
    let place = (c as u32 + 208) % 256;
    let other = letter(c);
    if place < 10 { place } else { other }
}

// The byte that the two digits from a place on spell.
#[tactic(auto, using(crate::proofs::Spelt::both_digits, crate::proofs::Spelt::pair_yes, crate::proofs::Spelt::pair_no), unfolding(crate::specs::Hex::pair_at))]
pub fn pair_at(file: &[u8], at: usize) -> Option<u8>
    requires { at + 2 ≤ length file.now }
    ensures { result ≡ some_but 256 (pair_at file.now at) }
{
    let high = digit(file[at]);
    let low = digit(file[at + 1]);
    if (high < 16) & (low < 16) {
        Some((high * 16 + low) as u8)
    } else {
        None
    }
}

// The sum of n bytes spelt from a place on.
#[tactic(auto, using(crate::proofs::Spelt::sum_stop, crate::proofs::Spelt::sum_end))]
pub fn sum_at(file: &[u8], at: usize, n: usize) -> Option<usize>
    requires n_bound { n ≤ 255 }
    requires n_in_bounds { at + 2 * n ≤ length file.now }
    ensures { result ≡ sum_in (bytes_at n file.now at) }
{
    let mut sum = 0;
    for k in 0..n {
        let b = pair_at(file, at + 2 * k)?;
        sum += usize::from(b);
    }
    Some(sum)
}

// A byte that is spelt, or 256: a number is asked for where the sum has looked at every byte.
#[tactic(auto, using(crate::proofs::Spelt::but_none, crate::proofs::Spelt::but_some))]
fn byte_or_256(file: &[u8], at: usize) -> usize
    requires { at + 2 ≤ length file.now }
    ensures { (result ≡ pair_at file.now at) × (result ≤ 256) }
{
    pair_at(file, at).map_or(256, usize::from)
}

// The number that 2, 3 or 4 bytes spelt from a place on are.
#[tactic(auto, using(crate::proofs::Spelt::number_end, crate::proofs::Spelt::most_le))]
pub fn number_at(file: &[u8], at: usize, width: usize) -> usize
    requires le_width { (2 ≤ width) × (width ≤ 4) }
    requires width_in_bounds { at + 2 * width ≤ length file.now }
    ensures { (result ≡ number_from 0 (bytes_at width file.now at)) × (result ≤ 4311810304) }
{
    let mut number = 0;
    for k in 0..width {
        number = number * 256 + byte_or_256(file, at + 2 * k);
    }
    number
}

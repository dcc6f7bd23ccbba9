// Expressions of a line: read, and valued, by readers that call each other.
#![tactic(auto)]

ghost use Rattle.std.specs.Prelude.{◌≡◌, ◌≤◌, ◌<◌, length, drop, true, false, pos, Ok};
ghost use Rattle.expr.specs.Grammar.{is_digit};
ghost use Rattle.expr.specs.Evaluate.{in_range, negated, joined, multiplied, digit_of};
ghost use Rattle.expr.specs.Digits.{digits_from, grown};
ghost use Rattle.expr.specs.Reads.{byte_at, Stands, factor_reads, prod_reads, expr_reads, want_p, want_e, terms_reads, sum_reads, number_reads, decimal_at, hex_at};

// No line goes on at the column.
#[derive(Clone, Copy, PartialEq, Eq, Debug)]
pub struct Stuck {
    pub column: usize,
}

// The first value outside -2^31 to 2^31 - 1 starts at the column.
#[derive(Clone, Copy, PartialEq, Eq, Debug)]
pub struct Off {
    pub column: usize,
}

pub type Value = Result<i32, Off>;

// What was read, and where it ends.
#[derive(Clone, Copy)]
pub struct Read<T> {
    pub end: usize,
    pub value: T,
}

pub fn byte_at(text: &[u8], at: usize) -> Option<u8>
    ensures { Stands text.now at result }
{
    text.get(at).copied()
}

fn in_range(at: usize, n: u64) -> Value
    ensures { result ≡ in_range at (pos n) }
{
    i32::try_from(n).map_err(|_| Off { column: at })
}

// The value of a digit. No Option as of `to_digit`: `digit_of` and `grown`, which lines are valued by, have a number for each byte.
#[tactic(auto, unfolding(crate::specs::Evaluate::digit_of))]
fn digit(c: u8) -> u8
    ensures { result ≡ digit_of c }
{
    match c {
        ..=b'9' => c.saturating_sub(b'0'),
        ..=b'F' => c.saturating_sub(b'A' - 10),
        _ => c.saturating_sub(b'a' - 10),
    }
}

// `hex` is the flag of the grammar (`is_digit`, `digits_value`); a type for the radix would have to be turned into it.
#[tactic(auto, unfolding(crate::specs::Grammar::is_digit))]
fn is_digit(hex: bool, c: u8) -> bool
    ensures { result ≡ is_digit hex c }
{
    c.is_ascii_digit() || hex && c.is_ascii_hexdigit()
}

#[tactic(auto, unfolding(crate::specs::Digits::grown))]
fn times_base(hex: bool, v: u64, c: u8) -> u64
    ensures { result ≡ grown hex v c }
{
    let base = if hex { 16 } else { 10 };
    if v < 0x8000_0000 {
        v * base + u64::from(digit(c))
    } else {
        v
    }
}

// The digits from a column on. By the column, which is answered: of `text[at..]` by `enumerate` the proof takes three answers more.
#[tactic(auto, using(crate::proofs::Numbers::digits_more, crate::proofs::Numbers::digits_stop, crate::proofs::Numbers::digits_end))]
pub fn digits(text: &[u8], at: usize, hex: bool) -> Read<u64>
    requires { at ≤ length text.now }
    ensures { result ≡ digits_from hex 0 at (drop at text.now) }
{
    let mut value: u64 = 0;
    for i in at..text.len() {
        let c = text[i];
        if !is_digit(hex, c) {
            return Read { end: i, value };
        }
        value = times_base(hex, value, c);
    }
    Read {
        end: text.len(),
        value,
    }
}

// A decimal number, whose first digit stands at the column.
#[tactic(auto, using(crate::proofs::Literal::digit_inside, crate::proofs::Literal::decimal_reads))]
fn decimal(text: &[u8], at: usize) -> Read<Value>
    requires { decimal_at text.now at }
    ensures { number_reads text.now at (Ok result) }
{
    let Read { end, value } = digits(text, at, false);
    Read {
        end,
        value: in_range(at, value),
    }
}

// A number whose 0x stands at the column.
#[tactic(auto, using(crate::proofs::Literal::hex_reads, crate::proofs::Literal::hex_bad, crate::proofs::Literal::hex_none))]
fn hexadecimal(text: &[u8], at: usize) -> Result<Read<Value>, Stuck>
    requires { hex_at text.now at }
    ensures { number_reads text.now at result }
{
    match byte_at(text, at + 2) {
        Some(c) if is_digit(true, c) => {
            let Read { end, value } = digits(text, at + 2, true);
            Ok(Read {
                end,
                value: in_range(at, value),
            })
        }
        _ => Err(Stuck { column: at + 2 }),
    }
}

// A number, whose first digit stands at the column.
fn number(text: &[u8], at: usize) -> Result<Read<Value>, Stuck>
    requires { is_digit false (byte_at text.now at) ≡ true }
    ensures { number_reads text.now at result }
{
    if byte_at(text, at) == Some(b'0') && byte_at(text, at + 1) == Some(b'x') {
        hexadecimal(text, at)
    } else {
        Ok(decimal(text, at))
    }
}

#[tactic(auto, using(crate::proofs::Steps::prod_facts, crate::proofs::Steps::expression_bad, crate::proofs::Steps::expression_sums))]
#[cycle(expression_factor_product_sums_terms)]
pub fn expression(text: &[u8], at: usize, room: usize) -> Result<Read<Value>, Stuck>
    requires { at ≤ length text.now }
    ensures { expr_reads text.now at at room want_e result }
{
    let first = product(text, at, room)?;
    sums(text, at, first, room)
}

// What follows a product: a sign and a product, again and again.
#[tactic(auto, using(crate::proofs::Steps::prod_facts, crate::proofs::Steps::sums_bad, crate::proofs::Steps::sums_more, crate::proofs::Steps::sums_none, crate::proofs::Steps::a_sign))]
#[cycle(expression_factor_product_sums_terms)]
fn sums(text: &[u8], begin: usize, left: Read<Value>, room: usize) -> Result<Read<Value>, Stuck>
    requires { left.end ≤ length text.now }
    ensures { sum_reads text.now begin left.end left.value room result }
{
    let Some(sign) = byte_at(text, left.end) else {
        return Ok(left);
    };
    if sign != b'+' && sign != b'-' {
        return Ok(left);
    }
    let next = product(text, left.end + 1, room)?;
    let both = Read {
        end: next.end,
        value: join(begin, sign == b'-', left.value, next.value),
    };
    sums(text, begin, both, room)
}

#[tactic(auto, using(crate::proofs::Steps::fac_facts, crate::proofs::Steps::product_bad, crate::proofs::Steps::product_terms))]
#[cycle(expression_factor_product_sums_terms)]
fn product(text: &[u8], at: usize, room: usize) -> Result<Read<Value>, Stuck>
    requires { at ≤ length text.now }
    ensures { prod_reads text.now at at room want_p result }
{
    let first = factor(text, at, room)?;
    terms(text, at, first, room)
}

// What follows a factor: * and a factor, again and again.
#[tactic(auto, using(crate::proofs::Steps::fac_facts, crate::proofs::Steps::terms_bad, crate::proofs::Steps::terms_more, crate::proofs::Steps::terms_none, crate::proofs::Bytes::stands_is, crate::proofs::Bytes::stands_not))]
#[cycle(expression_factor_product_sums_terms)]
fn terms(text: &[u8], begin: usize, left: Read<Value>, room: usize) -> Result<Read<Value>, Stuck>
    requires { left.end ≤ length text.now }
    ensures { terms_reads text.now begin left.end left.value room result }
{
    if byte_at(text, left.end) != Some(b'*') {
        return Ok(left);
    }
    let next = factor(text, left.end + 1, room)?;
    let both = Read {
        end: next.end,
        value: multiply(begin, left.value, next.value),
    };
    terms(text, begin, both, room)
}

#[tactic(auto, using(crate::proofs::Steps::bracket_full, crate::proofs::Steps::minus_full, crate::proofs::Steps::bracket_bad, crate::proofs::Steps::bracket_closed, crate::proofs::Steps::bracket_open, crate::proofs::Steps::minus_bad, crate::proofs::Steps::minus_done, crate::proofs::Steps::no_factor, crate::proofs::Steps::nothing, crate::proofs::Steps::number_reads_lem, crate::proofs::Bytes::stands_is, crate::proofs::Bytes::stands_not))]
#[cycle(expression_factor_product_sums_terms)]
fn factor(text: &[u8], at: usize, room: usize) -> Result<Read<Value>, Stuck>
    requires { at ≤ length text.now }
    ensures { factor_reads text.now at room result }
{
    let Some(c) = byte_at(text, at) else {
        return Err(Stuck { column: at });
    };
    match c {
        b'(' => {
            if room == 0 {
                return Err(Stuck { column: at });
            }
            let inner = expression(text, at + 1, room - 1)?;
            if byte_at(text, inner.end) != Some(b')') {
                return Err(Stuck { column: inner.end });
            }
            Ok(Read {
                end: inner.end + 1,
                value: inner.value,
            })
        }
        b'-' => {
            if room == 0 {
                return Err(Stuck { column: at });
            }
            let inner = factor(text, at + 1, room - 1)?;
            Ok(Read {
                end: inner.end,
                value: negate(at, inner.value),
            })
        }
        _ => {
            if is_digit(false, c) {
                number(text, at)
            } else {
                Err(Stuck { column: at })
            }
        }
    }
}

// -v: that of -2^31 is outside.
#[tactic(auto, using(crate::proofs::Range::in_range_or), unfolding(crate::specs::Evaluate::negated))]
fn negate(at: usize, v: Value) -> Value
    ensures { result ≡ negated at v }
{
    v?.checked_neg().ok_or(Off { column: at })
}

// The sum or the difference of two values.
#[tactic(auto, using(crate::proofs::Range::in_range_or), unfolding(crate::specs::Evaluate::joined, crate::specs::Evaluate::both))]
fn join(at: usize, minus: bool, a: Value, b: Value) -> Value
    ensures { result ≡ joined at minus a b }
{
    let a = a?;
    let b = b?;
    let both = if minus {
        a.checked_sub(b)
    } else {
        a.checked_add(b)
    };
    both.ok_or(Off { column: at })
}

// The product of two values.
#[tactic(auto, using(crate::proofs::Range::in_range_or), unfolding(crate::specs::Evaluate::multiplied, crate::specs::Evaluate::both))]
fn multiply(at: usize, a: Value, b: Value) -> Value
    ensures { result ≡ multiplied at a b }
{
    a?.checked_mul(b?).ok_or(Off { column: at })
}

// A row of the table printed with an instruction's operands.
ghost use Rattle.std.specs.Prelude.{◌≡◌, ◌+◌, ◌-◌, ◌≤◌, ◌<◌, [], ◌∷◌, length};
ghost use Rattle.std.proofs.lemmas.List.Edits.{sets};
ghost use Rattle.syntax.specs.LineOf.{decimal, register_text, base_text, signed_text, number_text};
ghost use Rattle.syntax.specs.Inside.{range_in, item_in, operand_text, wide_item, queue_after, pattern_of, printed, wide};

use crate::five::Five;
use crate::slot::{Number, Slot};

// The fields of operands that are still to be printed, in the order of the line: the next is a.
pub type Queue = Five<u32>;

// A byte at a place; the next place.
fn put_byte(out: &mut [u8], at: usize, c: u8) -> usize
    requires { at < length out.old }
    ensures { (result ≡ at + 1) × (out.new ≡ sets out.old at (c ∷ [])) }
{
    out[at] = c;
    at + 1
}

fn digit(n: u32) -> u8
    requires { n < 10 }
    ensures { result ≡ 48 + n }
{
    b'0' + n as u8
}

// The last k digits of a number, from a place on; where they end. It calls itself as `decimal` does: the first digit is written
// first, and how many come before the last is known only then.
#[tactic(auto, using(crate::proofs::Printing::put_one, crate::proofs::Printing::decimal_length), unfolding(crate::specs::LineOf::decimal))]
fn put_decimal(out: &mut [u8], at: usize, n: u32, k: usize) -> usize
    requires { at + k ≤ length out.old }
    ensures { (result ≡ at + length (decimal k n)) × (out.new ≡ sets out.old at (decimal k n)) }
{
    if k == 0 {
        return at;
    }
    if n < 10 {
        return put_byte(out, at, digit(n));
    }
    let end = put_decimal(out, at, n / 10, k - 1);
    put_byte(out, end, digit(n % 10))
}

fn put_register(out: &mut [u8], at: usize, n: u32) -> usize
    requires { at + 3 ≤ length out.old }
    ensures { (result ≡ at + length (register_text n)) × (out.new ≡ sets out.old at (register_text n)) }
{
    let next = put_byte(out, at, b'r');
    put_decimal(out, next, n, 2)
}

// Where 9.4 reads (RA|0), r0 is a lone 0.
fn put_base(out: &mut [u8], at: usize, n: u32) -> usize
    requires { at + 3 ≤ length out.old }
    ensures { (result ≡ at + length (base_text n)) × (out.new ≡ sets out.old at (base_text n)) }
{
    if n == 0 {
        return put_byte(out, at, b'0');
    }
    put_register(out, at, n)
}

// Two's complement in a field of 2 * h values, times a unit.
fn put_signed(out: &mut [u8], at: usize, unit: u32, h: u32, n: u32) -> usize
    requires { (at + 9 ≤ length out.old) × ((unit ≤ 8) × (h ≤ 0x80_0000)) }
    ensures { (result ≡ at + length (signed_text unit h n)) × (out.new ≡ sets out.old at (signed_text unit h n)) }
{
    if n < h {
        return put_decimal(out, at, unit * n, 8);
    }
    let next = put_byte(out, at, b'-');
    put_decimal(out, next, unit * (2 * h).saturating_sub(n), 8)
}

fn put_number(out: &mut [u8], at: usize, number: Number, n: u32) -> usize
    requires { at + 9 ≤ length out.old }
    ensures { (result ≡ at + length (number_text (range_in number) n)) × (out.new ≡ sets out.old at (number_text (range_in number) n)) }
{
    match number {
        Number::Signed => put_signed(out, at, 1, 0x8000, n),
        Number::Unsigned | Number::Five | Number::Six | Number::Two | Number::Ten | Number::One =>
            put_decimal(out, at, n, 8),
        Number::Frame => put_signed(out, at, 8, 0x1000, n),
        Number::Branch => put_signed(out, at, 4, 0x80_0000, n),
        Number::Conditional => put_signed(out, at, 4, 0x2000, n),
    }
}

fn put_item(out: &mut [u8], at: usize, slot: Slot, n: u32) -> usize
    requires { at + wide_item (item_in slot) ≤ length out.old }
    ensures { (result ≡ at + length (operand_text (item_in slot) n)) × (out.new ≡ sets out.old at (operand_text (item_in slot) n)) }
{
    match slot {
        Slot::Byte(c) => put_byte(out, at, c),
        Slot::Register => put_register(out, at, n),
        Slot::Base => put_base(out, at, n),
        Slot::Number(number) => put_number(out, at, number, n),
    }
}

// The operands that are left after it.
fn after(slot: Slot, q: Queue) -> Queue
    ensures { result ≡ queue_after (item_in slot) q }
{
    match slot {
        Slot::Byte(_) => q,
        Slot::Register | Slot::Base | Slot::Number(_) => q.shift(0),
    }
}

#[tactic(auto, using(crate::proofs::Printing::gone_end, crate::proofs::Printing::gone_stop, crate::proofs::Printing::item_room))]
pub fn print(out: &mut [u8], row: &[u8], fields: Queue) -> usize
    requires { wide (pattern_of row.now) ≤ length out.old }
    ensures { (result ≡ length (printed (pattern_of row.now) fields)) × (out.new ≡ sets out.old 0 (printed (pattern_of row.now) fields)) }
{
    let mut q = fields;
    let mut at = 0;
    for c in row {
        if *c == b';' {
            return at;
        }
        let slot = Slot::from(*c);
        at = put_item(out, at, slot, q.a);
        q = after(slot, q);
    }
    at
}

// One operand of a row read at a column of the line.
ghost use Rattle.std.specs.Prelude.{◌≡◌, ◌≤◌, length, drop};
ghost use Rattle.syntax.specs.Syntax.{lit, reg, zreg, num};
ghost use Rattle.syntax.specs.Take.{take_item};
ghost use Rattle.syntax.specs.Inside.{range_in, item_in, step_of};

use crate::field::{Field, Misfit, below_limit, number_code};
use crate::slot::{Number, Slot};
use expr::{Read, Stuck, byte_at};

// r and digits.
#[tactic(auto, using(crate::proofs::Walk::no_reg, crate::proofs::Walk::no_number, crate::proofs::Walk::reg_step, expr::proofs::Bytes::stands_is, expr::proofs::Bytes::stands_not))]
fn register(text: &[u8], at: usize) -> Result<Read<Field>, Stuck>
    requires { at ≤ length text.now }
    ensures { result ≡ step_of reg at (take_item reg at (drop at text.now)) }
{
    if byte_at(text, at) != Some(b'r') {
        return Err(Stuck { column: at });
    }
    let run = expr::digits(text, at + 1, false);
    if run.end == at + 1 {
        return Err(Stuck { column: at + 1 });
    }
    Ok(Read {
        end: run.end,
        value: below_limit(32, run.value),
    })
}

// The same, or a lone 0.
#[tactic(auto, using(crate::proofs::Walk::zero_step, crate::proofs::Walk::zreg_step, expr::proofs::Bytes::stands_is, expr::proofs::Bytes::stands_not))]
fn register_or_zero(text: &[u8], at: usize) -> Result<Read<Field>, Stuck>
    requires { at ≤ length text.now }
    ensures { result ≡ step_of zreg at (take_item zreg at (drop at text.now)) }
{
    if byte_at(text, at) == Some(b'0') {
        Ok(Read {
            end: at + 1,
            value: Ok(0),
        })
    } else {
        register(text, at)
    }
}

#[tactic(auto, using(crate::proofs::Walk::num_bad, crate::proofs::Walk::num_read))]
fn number(text: &[u8], at: usize, number: Number) -> Result<Read<Field>, Stuck>
    requires { at ≤ length text.now }
    ensures { result ≡ step_of (num (range_in number)) at (take_item (num (range_in number)) at (drop at text.now)) }
{
    let Read { end, value } = expr::expression(text, at, 16)?;
    Ok(Read {
        end,
        value: number_code(number, value.map(i128::from)),
    })
}

// That byte, which has no field.
#[tactic(auto, using(crate::proofs::Walk::byte_took, crate::proofs::Walk::byte_lacks, expr::proofs::Bytes::stands_is, expr::proofs::Bytes::stands_not))]
fn byte(text: &[u8], at: usize, c: u8) -> Result<Read<Field>, Stuck>
    requires { at ≤ length text.now }
    ensures { result ≡ step_of (lit c) at (take_item (lit c) at (drop at text.now)) }
{
    if byte_at(text, at) == Some(c) {
        Ok(Read {
            end: at + 1,
            value: Err(Misfit::Unfit),
        })
    } else {
        Err(Stuck { column: at })
    }
}

// What a slot of a row stands for.
pub fn take(text: &[u8], at: usize, slot: Slot) -> Result<Read<Field>, Stuck>
    requires { at ≤ length text.now }
    ensures { result ≡ step_of (item_in slot) at (take_item (item_in slot) at (drop at text.now)) }
{
    match slot {
        Slot::Byte(c) => byte(text, at, c),
        Slot::Register => register(text, at),
        Slot::Base => register_or_zero(text, at),
        Slot::Number(n) => number(text, at, n),
    }
}

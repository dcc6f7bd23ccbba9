// A line against one row of the table: a semicolon ends the row.
ghost use Rattle.std.specs.Prelude.{◌≡◌, length};
ghost use Rattle.syntax.specs.Inside.{pattern_of, spot_of, no_operands, finish_of};

use crate::field::Field;
use crate::five::Five;
use crate::item::take;
use crate::slot::Slot;
use expr::{Stuck, byte_at};

// The operands of a line: a is the last, b the one before it.
pub type Operands = Five<Field>;

fn no_operands() -> Operands
    ensures { result ≡ no_operands }
{
    Five {
        a: Ok(0),
        b: Ok(0),
        c: Ok(0),
        d: Ok(0),
        e: Ok(0),
    }
}

fn finish(text: &[u8], at: usize, operands: Operands) -> Result<Operands, Stuck>
    ensures { result ≡ finish_of (length text.now) at operands }
{
    if at == text.len() {
        Ok(operands)
    } else {
        Err(Stuck { column: at })
    }
}

#[tactic(auto, using(crate::proofs::Walk::operand_inside, crate::proofs::Walk::line_operand, crate::proofs::Walk::line_stuck, crate::proofs::Walk::line_byte, crate::proofs::Walk::line_lacks, expr::proofs::Bytes::stands_is, expr::proofs::Bytes::stands_not, crate::proofs::Walk::line_ended, crate::proofs::Walk::line_over), unfolding(crate::specs::Inside::spot_of))]
pub fn line(text: &[u8], row: &[u8]) -> Result<Operands, Stuck>
    ensures { result ≡ spot_of (pattern_of row.now) text.now }
{
    let mut at = 0;
    let mut operands = no_operands();
    for c in row {
        if *c == b';' {
            return finish(text, at, operands);
        }
        match Slot::from(*c) {
            Slot::Byte(b) if byte_at(text, at) == Some(b) => at += 1,
            Slot::Byte(_) => return Err(Stuck { column: at }),
            slot => {
                let read = take(text, at, slot)?;
                operands = operands.push(read.value);
                at = read.end;
            }
        }
    }
    finish(text, at, operands)
}

// A line as a core's word, or why it is refused.
ghost use Rattle.std.specs.Prelude.{◌≡◌, length, ◌≤◌, ◌<◌};
ghost use Rattle.insn.specs.Read.{decode_on};
ghost use Rattle.syntax.specs.declared.field.Misfit.{Misfit};
ghost use Rattle.asm.specs.Answer.{Answer};
ghost use Rattle.asm.specs.Inside.{refused_by, after_of, checked_of, held_of, encoded_with, settled_of, Placed};
ghost use Rattle.asm.specs.declared.assemble.Refused.{Refused};

use crate::fill::{Codes, codes_of, fill};
use expr::{Off, Stuck};
use insn::profile::Profile;
use syntax::field::{Field, Misfit};
use syntax::line::Operands;
use syntax::table::{Found, find};

// No line of the core's grammar goes on at a column; the first value outside -2^31 to 2^31 - 1 starts there; or no valid
// instruction has these operands.
#[derive(Clone, Copy, PartialEq, Eq, Debug)]
pub enum Refused {
    Grammar(Stuck),
    Value(Off),
    Operands,
}

impl From<Stuck> for Refused {
    ghost from_gives = { λ stuck refused. refused ≡ Refused.Grammar stuck };

    fn from(stuck: Stuck) -> Refused {
        Refused::Grammar(stuck)
    }
}

impl From<Misfit> for Refused {
    ghost from_gives = { λ misfit refused. refused ≡ refused_by misfit };

    fn from(misfit: Misfit) -> Refused {
        match misfit {
            Misfit::Off(off) => Refused::Value(off),
            Misfit::Unfit => Refused::Operands,
        }
    }
}

// What the operands seen so far come to: one that does not fit counts only if no value is off.
fn after(seen: Result<(), Misfit>, field: Field) -> Result<(), Misfit>
    ensures { result ≡ after_of seen field }
{
    match seen {
        Err(Misfit::Off(_)) => seen,
        _ => field.and(seen),
    }
}

// Left to right.
fn check_all(o: Operands) -> Result<(), Misfit>
    ensures { result ≡ checked_of o }
{
    after(after(after(after(after(Ok(()), o.e), o.d), o.c), o.b), o.a)
}

// All five are looked at before the first is taken: one that does not fit counts only if no value is off.
fn codes(o: Operands) -> Result<Codes, Misfit>
    ensures { result ≡ held_of (checked_of o) o }
{
    check_all(o)?;
    Ok(codes_of(o))
}

// The instruction of a row with the line's operands, written.
fn encode(profile: Profile, word: u32, codes: Codes) -> Result<u32, Refused>
    ensures { result ≡ encoded_with profile (decode_on profile word) codes }
{
    let row = insn::read::read(profile, word).ok_or(Refused::Operands)?;
    insn::write::write(profile, fill(row, codes)).ok_or(Refused::Operands)
}

fn settle(profile: Profile, found: Found) -> Result<u32, Refused>
    ensures { result ≡ settled_of profile (checked_of found.operands) (decode_on profile found.word) found.operands }
{
    encode(profile, found.word, codes(found.operands)?)
}

// By the first byte.
#[tactic(auto, using(crate::proofs::Letters::placed_empty, crate::proofs::Letters::placed_read))]
fn place(profile: Profile, line: &[u8]) -> Result<Found, Stuck>
    ensures { Placed profile line.now result }
{
    match line.first() {
        Some(letter) => find(profile, *letter, line),
        None => Err(Stuck { column: 0 }),
    }
}

// A line of up to 256 bytes.
#[tactic(auto, using(crate::proofs::Answers::placed_answer, crate::proofs::Letters::short_bad))]
fn short(profile: Profile, line: &[u8]) -> Result<u32, Refused>
    requires { length line.now ≤ 256 }
    ensures { Answer profile line.now result }
{
    settle(profile, place(profile, line)?)
}

// A longer line, by its first 256 bytes.
#[tactic(auto, using(crate::proofs::Letters::long_bad))]
fn long(profile: Profile, line: &[u8]) -> Result<u32, Refused>
    requires { 256 < length line.now }
    ensures { Answer profile line.now result }
{
    place(profile, &line[..256])?;
    Err(Refused::Grammar(Stuck { column: 256 }))
}

pub fn assemble(profile: Profile, line: &[u8]) -> Result<u32, Refused>
    ensures { Answer profile line.now result }
{
    if line.len() <= 256 {
        short(profile, line)
    } else {
        long(profile, line)
    }
}

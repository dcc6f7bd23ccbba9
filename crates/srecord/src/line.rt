// A line of a lent file, and the record that it holds.
ghost use Rattle.std.specs.Prelude.{◌≡◌, ◌+◌, ◌*◌, ◌≤◌, ◌<◌, leb, ltb, eqb, length};
ghost use Rattle.memory.specs.Access.{pick};
ghost use Rattle.srecord.specs.Record.{width_of, is_data};
ghost use Rattle.srecord.specs.Found.{some_but, head_of, end_of, found_of};

use crate::hex::{number_at, pair_at, sum_at};

// A record's type, its address, where its data stand and how many bytes they are, and where the next line begins. The type is the
// digit that the file has, and no enum: `Line.holds`, `check_record` and the theorems on them speak of it as a number, so that an enum
// would stand behind a conversion in each clause.
#[derive(Clone, Copy)]
pub struct Record {
    pub kind: u8,
    pub address: usize,
    pub start: usize,
    pub size: usize,
    pub next: usize,
}

impl Record {
    // S1, S2 and S3 have data for memory.
    pub fn is_data(self) -> bool
        ensures { result ≡ is_data self.kind }
    {
        matches!(self.kind, 1..=3)
    }
}

// What a record begins with: its type, how many bytes its address has, and its count.
#[derive(Clone, Copy)]
struct Head {
    kind: u8,
    width: usize,
    count: usize,
}

// How many bytes the address of a type has; S4 and S6 are no types.
#[tactic(auto, unfolding(crate::specs::Record::width_of))]
fn width_of(kind: u8) -> Option<usize>
    ensures { result ≡ some_but 0 (width_of kind) }
{
    match kind {
        0 | 1 | 5 | 9 => Some(2),
        2 | 8 => Some(3),
        3 | 7 => Some(4),
        _ => None,
    }
}

// Whether a count takes in an address, data and the check byte; only S0 to S3 have data.
fn room_for(kind: u8, width: usize, count: usize) -> bool
    requires { width ≤ 4 }
    ensures { result ≡ pick (leb kind 3) (ltb width count) (eqb count (width + 1)) }
{
    if kind <= 3 {
        width < count
    } else {
        count == width + 1
    }
}

// S, a type, and a count that fits it.
#[tactic(auto, using(crate::proofs::Formed::head_bare, crate::proofs::Formed::head_wide, crate::proofs::Formed::head_odd, crate::proofs::Formed::width_le, crate::proofs::Spelt::but_none, crate::proofs::Spelt::but_some))]
fn head_at(file: &[u8], at: usize) -> Option<Head>
    requires { at + 4 ≤ length file.now }
    ensures { result ≡ head_of file.now at }
{
    let kind = file[at + 1].checked_sub(b'0')?;
    let width = width_of(kind)?;
    let count = usize::from(pair_at(file, at + 2)?);
    ((file[at] == b'S') & room_for(kind, width, count)).then_some(Head { kind, width, count })
}

// Where the next line begins, if a line ends here: in a line feed, or in a carriage return and a line feed.
#[tactic(auto, using(crate::proofs::Formed::ends_last), unfolding(crate::specs::Found::end_of, crate::specs::Found::line_end, crate::specs::Record::ends_at))]
fn line_end(file: &[u8], at: usize) -> Option<usize>
    requires { at < length file.now }
    ensures { result ≡ end_of file.now at }
{
    if file[at] == b'\n' {
        return Some(at + 1);
    }
    if at + 1 < file.len() && file[at] == b'\r' && file[at + 1] == b'\n' {
        return Some(at + 2);
    }
    None
}

// The record from a place on, to its line's end.
#[tactic(auto, using(crate::proofs::Formed::head_found))]
pub fn line_at(file: &[u8], at: usize) -> Option<Record>
    requires { at ≤ length file.now }
    ensures { result ≡ found_of file.now at }
{
    let left = file.len() - at;
    if left < 4 {
        return None;
    }
    let head = head_at(file, at)?;
    if left <= 4 + 2 * head.count {
        return None;
    }
    let first = at + 4;
    let sum = sum_at(file, first, head.count)?;
    let next = line_end(file, first + 2 * head.count)?;
    if (head.count + sum) % 256 != 255 {
        return None;
    }
    Some(Record {
        kind: head.kind,
        address: number_at(file, first, head.width),
        start: first + 2 * head.width,
        size: head.count - 1 - head.width,
        next,
    })
}

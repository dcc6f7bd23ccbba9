// The first line of a lent file that is refused. Nothing is stored.
ghost use Rattle.std.specs.Prelude.{◌≡◌, List, ℕ, ◌+◌, ◌≤◌, ◌<◌};
ghost use Rattle.srecord.specs.Record.{lines_of};
ghost use Rattle.srecord.specs.File.{start, same_kind, ends_kind, check_end, check_count, after, verdict};
ghost use Rattle.srecord.specs.Named.{StandsFor};
ghost use Rattle.srecord.specs.Judged.{seen_of, DataJudged, Judged};

use crate::line::{Record, line_at};
use crate::named::Named;
use machine::refusal::Refusal;

// Why a file is refused, and the number of the line that is.
#[derive(Clone, Copy, PartialEq, Eq, Debug)]
pub struct Rejected {
    pub refusal: Refusal,
    pub line: usize,
}

// What the lines so far were, but for the bytes they named: the type of their data records, how many there were, and whether the last
// line was an end.
#[derive(Clone, Copy)]
pub struct Sofar {
    pub kind: Option<u8>,
    pub count: usize,
    pub ended: bool,
}

impl Sofar {
    // Whether data of a type may follow.
    fn same_kind(self, kind: u8) -> bool
        ensures { result ≡ same_kind self.kind kind }
    {
        self.kind.is_none_or(|k| k == kind)
    }

    // Whether an end of a type may follow: S9 for S1, S8 for S2, S7 for S3.
    fn ends_kind(self, kind: u8) -> bool
        ensures { result ≡ ends_kind self.kind kind }
    {
        self.kind
            .is_none_or(|k| usize::from(k) + usize::from(kind) == 10)
    }

    fn check_data(self, bytes: &mut Named, memory: usize, found: Record) -> Result<(), Refusal>
        requires memory_bound { memory ≤ 1048576 }
        requires address_bound { (found.address ≤ 4311810304) × (found.size ≤ 255) }
        ensures { (named : List ℕ) → StandsFor bytes.old.words named → DataJudged memory self found.kind found.address found.size result bytes.new.words named }
    {
        if !self.same_kind(found.kind) {
            return Err(Refusal::Record);
        }
        if found.size == 0 {
            return Ok(());
        }
        if memory < found.address + found.size {
            return Err(Refusal::Outside);
        }
        if bytes.name(found.address, found.size) {
            return Err(Refusal::Twice);
        }
        Ok(())
    }

    #[tactic(auto, unfolding(crate::specs::File::check_end))]
    fn check_end(self, kind: u8) -> Result<(), Refusal>
        ensures { (named : List ℕ) → result ≡ check_end (seen_of self named) kind }
    {
        if self.ends_kind(kind) {
            Ok(())
        } else {
            Err(Refusal::End)
        }
    }

    #[tactic(auto, unfolding(crate::specs::File::check_count))]
    fn check_count(self, address: usize) -> Result<(), Refusal>
        ensures { (named : List ℕ) → result ≡ check_count (seen_of self named) address }
    {
        if address == self.count {
            Ok(())
        } else {
            Err(Refusal::Count)
        }
    }

    // Whether a record may follow; S0 says nothing.
    fn check(self, bytes: &mut Named, memory: usize, found: Record) -> Result<(), Refusal>
        requires memory_bound { memory ≤ 1048576 }
        requires address_bound { (found.address ≤ 4311810304) × (found.size ≤ 255) }
        ensures { (named : List ℕ) → StandsFor bytes.old.words named → Judged memory self found.kind found.address found.size result bytes.new.words named }
    {
        if self.ended {
            return Err(Refusal::Record);
        }
        match found.kind {
            1..=3 => self.check_data(bytes, memory, found),
            5 => self.check_count(found.address),
            7.. => self.check_end(found.kind),
            _ => Ok(()),
        }
    }

    // What was seen after a record.
    #[tactic(auto, unfolding(crate::specs::File::after))]
    fn after(self, found: Record) -> Sofar
        requires { self.count < 18446744073709551615 }
        ensures { (named : List ℕ) (a n : ℕ) → seen_of result (after (seen_of self named) found.kind a n).named ≡ after (seen_of self named) found.kind a n }
    {
        let ended = 7 <= found.kind;
        if found.is_data() {
            Sofar {
                kind: Some(found.kind),
                count: self.count + 1,
                ended,
            }
        } else {
            Sofar { ended, ..self }
        }
    }
}

// Whether every line may stand where it does; the error tells of the first that may not.
#[tactic(auto, using(crate::proofs::Judge::found_is, crate::proofs::Judge::found_bad, crate::proofs::Judge::found_bounds, crate::proofs::Judge::verdict_end, crate::proofs::Judge::verdict_bad, crate::proofs::Lines::next_bounds))]
pub fn check(file: &[u8], memory: usize) -> Result<(), Rejected>
    requires { memory ≤ 1048576 }
    ensures { result ≡ verdict memory start 1 (lines_of file.now) }
{
    let mut bytes = Named { words: [0; 32768] };
    let mut so = Sofar {
        kind: None,
        count: 0,
        ended: false,
    };
    // a record tells where the next line begins: an iterator of records would be a type with laws of its own, longer than this loop and
    // the one of `store`
    let mut at = 0;
    let mut line = 1;
    while at < file.len() {
        let Some(found) = line_at(file, at) else {
            return Err(Rejected {
                refusal: Refusal::Record,
                line,
            });
        };
        if let Err(refusal) = so.check(&mut bytes, memory, found) {
            return Err(Rejected { refusal, line });
        }
        so = so.after(found);
        at = found.next;
        line += 1;
    }
    if so.ended {
        Ok(())
    } else {
        Err(Rejected {
            refusal: Refusal::End,
            line,
        })
    }
}

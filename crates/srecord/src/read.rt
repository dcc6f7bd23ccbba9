// A lent file into lent memory: every line is checked before the first byte is stored.
ghost use Rattle.std.specs.Prelude.{◌≡◌, true, ◌+◌, ◌*◌, ◌≤◌, ◌<◌, length, is_ok};
ghost use Rattle.std.proofs.lemmas.List.Edits.{sets};
ghost use Rattle.memory.specs.Access.{pick};
ghost use Rattle.srecord.specs.Hex.{bytes_at, all_bytes};
ghost use Rattle.srecord.specs.Record.{is_data, lines_of};
ghost use Rattle.srecord.specs.File.{start, verdict, placed, read_of, memory_of};

use crate::check::{Rejected, check};
use crate::hex::pair_at;
use crate::line::{Record, line_at};
use machine::refusal::Refusal;
use memory::access::sized;

// Stores n bytes spelt from a place of the file on.
#[tactic(auto, using(crate::proofs::Spelt::put_end))]
fn put_bytes(mem: &mut [u8], at: usize, file: &[u8], from: usize, n: usize)
    requires n_in_bounds { at + n ≤ length mem.old }
    requires n_in_bounds_2 { from + 2 * n ≤ length file.now }
    requires from_value { all_bytes (bytes_at n file.now from) ≡ true }
    ensures { mem.new ≡ sets mem.old at (bytes_at n file.now from) }
{
    for k in 0..n {
        let Some(b) = pair_at(file, from + 2 * k) else {
            return;
        };
        mem[at + k] = b;
    }
}

// Stores a record's data, if it is a data record.
#[tactic(auto, unfolding(crate::specs::Hex::bytes_at))]
fn put_record(mem: &mut [u8], file: &[u8], found: Record)
    requires n_in_bounds { is_data found.kind ≡ true → 0 < found.size → found.address + found.size ≤ length mem.old }
    requires n_in_bounds_2 { found.start + 2 * found.size ≤ length file.now }
    requires from_value { all_bytes (bytes_at found.size file.now found.start) ≡ true }
    ensures { mem.new ≡ pick (is_data found.kind) (sets mem.old found.address (bytes_at found.size file.now found.start)) mem.old }
{
    if found.is_data() && found.size != 0 {
        put_bytes(mem, found.address, file, found.start, found.size);
    }
}

// Stores what the records of a good file name.
#[tactic(auto, using(crate::proofs::Judge::found_is, crate::proofs::Judge::found_bad, crate::proofs::Judge::found_bounds, crate::proofs::Judge::data_bytes, crate::proofs::Judge::verdict_good, crate::proofs::Lines::next_bounds, crate::proofs::Judge::placed_end))]
fn store(mem: &mut [u8], file: &[u8])
    requires { is_ok (verdict (length mem.old) start 1 (lines_of file.now)) ≡ true }
    ensures { mem.new ≡ placed mem.old (lines_of file.now) }
{
    let mut at = 0;
    while at < file.len() {
        let Some(found) = line_at(file, at) else {
            return;
        };
        put_record(mem, file, found);
        at = found.next;
    }
}

// Reads a file into memory. Refused, it stores nothing.
#[tactic(auto, using(crate::proofs::Answer::read_sized, crate::proofs::Answer::read_refused, crate::proofs::Answer::read_good))]
pub fn read(mem: &mut [u8], file: &[u8]) -> Result<(), Rejected>
    ensures { (result ≡ read_of (length mem.old) file.now) × (mem.new ≡ memory_of mem.old file.now) }
{
    let size = mem.len();
    if !sized(size) {
        return Err(Rejected {
            refusal: Refusal::Memory,
            line: 0,
        });
    }
    check(file, size)?;
    store(mem, file);
    Ok(())
}

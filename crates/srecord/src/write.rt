// Lent memory as S3 records of 32 bytes and one S7.
ghost use Rattle.std.specs.Prelude.{◌≡◌, ◌++◌, ◌+◌, ◌*◌, ◌/◌, ◌%◌, ◌≤◌, ◌<◌, length};
ghost use Rattle.std.proofs.lemmas.List.Edits.{sets};
ghost use Rattle.srecord.specs.Hex.{sum_of};
ghost use Rattle.srecord.specs.Write.{hex_digit, hexes, text_of, block_text, blocks, end_text, written_of, out_of};

use machine::refusal::Refusal;
use memory::access::sized;
use memory::store::put_word;

#[tactic(auto, unfolding(crate::specs::Write::hex_digit))]
fn hex_digit(v: u8) -> u8
    requires { v < 16 }
    ensures { result ≡ hex_digit v }
{
    if v < 10 { b'0' + v } else { b'A' + v - 10 }
}

// Writes bytes in hex from a place on.
#[tactic(auto, using(crate::proofs::Text::hex_end))]
fn put_hexes(out: &mut [u8], at: usize, bytes: &[u8])
    requires { at + 2 * length bytes.now ≤ length out.old }
    ensures { out.new ≡ sets out.old at (hexes bytes.now) }
{
    for (i, b) in bytes.iter().enumerate() {
        let q = at + 2 * i;
        out[q] = hex_digit(*b / 16);
        out[q + 1] = hex_digit(*b % 16);
    }
}

fn sum_of(bytes: &[u8]) -> usize
    requires { length bytes.now ≤ 256 }
    ensures { (result ≡ sum_of bytes.now) × (result ≤ 65280) }
{
    bytes.iter().map(|&b| usize::from(b)).sum()
}

// Writes a record: a type, the count with the address, the data.
#[tactic(auto, using(crate::proofs::Text::check_of_lem, crate::proofs::Text::line_pieces))]
fn put_line(out: &mut [u8], at: usize, kind: u8, head: &[u8], body: &[u8])
    requires kind_bound { kind ≤ 9 }
    requires head_len_bound { (length head.now ≤ 256) × (length body.now ≤ 256) }
    requires body_in_bounds { at + 2 * (length head.now + length body.now) + 5 ≤ length out.old }
    ensures { out.new ≡ sets out.old at (text_of kind (head.now ++ body.now)) }
{
    let check = [(255 - (sum_of(head) + sum_of(body)) % 256) as u8];
    out[at] = b'S';
    out[at + 1] = b'0' + kind;
    let first = at + 2;
    put_hexes(out, first, head);
    let second = first + 2 * head.len();
    put_hexes(out, second, body);
    let third = second + 2 * body.len();
    put_hexes(out, third, &check);
    out[third + 2] = b'\n';
}

// Writes the S3 record of the 32 bytes from an address on.
#[tactic(auto, unfolding(memory::specs::Store::bytes_of, crate::specs::Write::block_text))]
fn put_block(out: &mut [u8], at: usize, memory: &[u8], a: usize)
    requires a_in_bounds { a + 32 ≤ length memory.now }
    requires memory_len_bound { length memory.now ≤ 1048576 }
    requires at_in_bounds { at + 79 ≤ length out.old }
    ensures { out.new ≡ sets out.old at (block_text a memory.now) }
{
    let mut head = [37, 0, 0, 0, 0];
    put_word(&mut head, 1, a as u32);
    let end = a + 32;
    put_line(out, at, 3, &head, &memory[a..end]);
}

// Writes the records of all blocks. A block's number gives both its place in the file and its address.
#[tactic(auto, using(crate::proofs::Text::blocks_end))]
fn put_blocks(out: &mut [u8], memory: &[u8])
    requires memory_len_bound { length memory.now ≤ 1048576 }
    requires memory_in_bounds { 79 * (length memory.now / 32) ≤ length out.old }
    ensures { out.new ≡ sets out.old 0 (blocks (length memory.now / 32) 0 memory.now) }
{
    for k in 0..memory.len() / 32 {
        put_block(out, 79 * k, memory, 32 * k);
    }
}

// Writes the S7 record.
#[tactic(auto, unfolding(memory::specs::Store::bytes_of, crate::specs::Write::end_text))]
fn put_end(out: &mut [u8], at: usize)
    requires { at + 15 ≤ length out.old }
    ensures { out.new ≡ sets out.old at end_text }
{
    let head = [5, 0, 0, 0, 0];
    let none = b"";
    put_line(out, at, 7, &head, none);
}

// Writes a memory as a file, and says how many bytes it has. Refused, it stores nothing.
pub fn write(memory: &[u8], out: &mut [u8]) -> Result<usize, Refusal>
    ensures { (result ≡ written_of memory.now out.old) × (out.new ≡ out_of memory.now out.old) }
{
    let size = memory.len();
    if !sized(size) {
        return Err(Refusal::Memory);
    }
    let room = 79 * (size / 32);
    if out.len() < room + 15 {
        return Err(Refusal::Output);
    }
    put_blocks(out, memory);
    put_end(out, room);
    Ok(room + 15)
}

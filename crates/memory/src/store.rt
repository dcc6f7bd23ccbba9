// Stores, and the clearing of a block of 32 bytes.
ghost use Rattle.std.specs.Prelude.{◌≡◌, ◌+◌, ◌≤◌, length, replicate};
ghost use Rattle.std.proofs.lemmas.List.Edits.{sets};
ghost use Rattle.word.specs.Width.{bytes};
ghost use Rattle.memory.specs.Access.{access_of};
ghost use Rattle.memory.specs.Store.{bytes_of, double_bytes, stored_of, stored_double_of, block_at, cleared_of};
ghost use Rattle.word.specs.declared.width.Width.{Width};

use crate::access::{Fault, access_at, block_access, double_access};
use word::width::Width;

#[tactic(auto, unfolding(crate::specs::Store::bytes_of))]
fn put_byte(mem: &mut [u8], at: usize, v: u32)
    requires { at + 1 ≤ length mem.old }
    ensures { mem.new ≡ sets mem.old at (bytes_of Width.Byte v) }
{
    mem[at] = (v % 0x100) as u8;
}

#[tactic(auto, unfolding(crate::specs::Store::bytes_of))]
fn put_half(mem: &mut [u8], at: usize, v: u32)
    requires { at + 2 ≤ length mem.old }
    ensures { mem.new ≡ sets mem.old at (bytes_of Width.Half v) }
{
    mem[at..at + 2].copy_from_slice(&((v % 0x1_0000) as u16).to_be_bytes());
}

#[tactic(auto, using(crate::proofs::Laws::lent_back), unfolding(crate::specs::Store::bytes_of))]
pub fn put_word(mem: &mut [u8], at: usize, v: u32)
    requires { at + 4 ≤ length mem.old }
    ensures { mem.new ≡ sets mem.old at (bytes_of Width.Word v) }
{
    mem[at..at + 4].copy_from_slice(&v.to_be_bytes());
}

fn put(mem: &mut [u8], at: usize, width: Width, v: u32)
    requires { at + bytes width ≤ length mem.old }
    ensures { mem.new ≡ sets mem.old at (bytes_of width v) }
{
    match width {
        Width::Byte => put_byte(mem, at, v),
        Width::Half => put_half(mem, at, v),
        Width::Word => put_word(mem, at, v),
    }
}

// The high-order word comes first.
#[tactic(auto, unfolding(crate::specs::Store::bytes_of))]
fn put_double(mem: &mut [u8], at: usize, v: u64)
    requires { at + 8 ≤ length mem.old }
    ensures { mem.new ≡ sets mem.old at (double_bytes v) }
{
    put_word(mem, at, (v / 0x1_0000_0000) as u32);
    put_word(mem, at + 4, (v % 0x1_0000_0000) as u32);
}

// Stores the value's last bytes, or nothing where the access is not served.
#[tactic(auto, using(crate::proofs::Laws::served_inside), unfolding(crate::specs::Store::stored_of))]
pub fn store(mem: &mut [u8], address: u32, width: Width, v: u32) -> Result<(), Fault>
    ensures { (result ≡ access_of (length mem.old) address (bytes width)) × (mem.new ≡ stored_of mem.old address width v) }
{
    access_at(mem.len(), address, width)?;
    put(mem, address as usize, width, v);
    Ok(())
}

// Stores the eight bytes of a doubleword, or nothing where the access is not served.
#[tactic(auto, using(crate::proofs::Laws::served_inside), unfolding(crate::specs::Store::stored_double_of))]
pub fn store_double(mem: &mut [u8], address: u32, v: u64) -> Result<(), Fault>
    ensures { (result ≡ access_of (length mem.old) address 8) × (mem.new ≡ stored_double_of mem.old address v) }
{
    double_access(mem.len(), address)?;
    put_double(mem, address as usize, v);
    Ok(())
}

// Clears the aligned block of 32 bytes that holds the address, or nothing where that block is outside.
#[tactic(auto, using(crate::proofs::Laws::served_inside), unfolding(crate::specs::Store::cleared_of))]
pub fn clear(mem: &mut [u8], address: u32) -> Result<(), Fault>
    ensures { (result ≡ access_of (length mem.old) (block_at address) 32) × (mem.new ≡ cleared_of mem.old address) }
{
    block_access(mem.len(), address)?;
    let at = (address / 32 * 32) as usize;
    mem[at..at + 32].fill(0);
    Ok(())
}

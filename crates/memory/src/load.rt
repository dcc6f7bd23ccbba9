// Fetches and loads.
ghost use Rattle.std.specs.Prelude.{◌≡◌, ◌+◌, ◌*◌, ◌^◌, ◌≤◌, length};
ghost use Rattle.word.specs.Width.{bytes};
ghost use Rattle.memory.specs.Load.{value_at, double_at, load_of, load_double_of, fetch_of};
ghost use Rattle.word.specs.declared.width.Width.{Width};

use crate::access::{Fault, access_at, double_access};
use word::width::Width;

#[tactic(auto, unfolding(crate::specs::Load::value_at))]
fn byte_at(mem: &[u8], at: usize) -> u32
    requires { at + 1 ≤ length mem.now }
    ensures { result ≡ value_at Width.Byte mem.now at }
{
    mem[at] as u32
}

#[tactic(auto, unfolding(crate::specs::Load::value_at))]
fn half_at(mem: &[u8], at: usize) -> u32
    requires { at + 2 ≤ length mem.now }
    ensures { result ≡ value_at Width.Half mem.now at }
{
    u32::from(u16::from_be_bytes([mem[at], mem[at + 1]]))
}

#[tactic(auto, unfolding(crate::specs::Load::value_at))]
pub fn word_at(mem: &[u8], at: usize) -> u32
    requires { at + 4 ≤ length mem.now }
    ensures { result ≡ value_at Width.Word mem.now at }
{
    u32::from_be_bytes([mem[at], mem[at + 1], mem[at + 2], mem[at + 3]])
}

fn value_at(mem: &[u8], at: usize, width: Width) -> u32
    requires { at + bytes width ≤ length mem.now }
    ensures { result ≡ value_at width mem.now at }
{
    match width {
        Width::Byte => byte_at(mem, at),
        Width::Half => half_at(mem, at),
        Width::Word => word_at(mem, at),
    }
}

// The word at the address is the high-order one. It has functions of its own, here and for stores: a width is asked for in the run, and its rule and
// its type are others.
#[tactic(auto, unfolding(crate::specs::Load::double_at))]
fn double_at(mem: &[u8], at: usize) -> u64
    requires { at + 8 ≤ length mem.now }
    ensures { result ≡ double_at mem.now at }
{
    word_at(mem, at) as u64 * 0x1_0000_0000 + word_at(mem, at + 4) as u64
}

#[tactic(auto, using(crate::proofs::Laws::served_inside), unfolding(crate::specs::Load::load_of))]
pub fn load(mem: &[u8], address: u32, width: Width) -> Result<u32, Fault>
    ensures { result ≡ load_of mem.now address width }
{
    access_at(mem.len(), address, width)?;
    Ok(value_at(mem, address as usize, width))
}

#[tactic(auto, using(crate::proofs::Laws::served_inside), unfolding(crate::specs::Load::load_double_of))]
pub fn load_double(mem: &[u8], address: u32) -> Result<u64, Fault>
    ensures { result ≡ load_double_of mem.now address }
{
    double_access(mem.len(), address)?;
    Ok(double_at(mem, address as usize))
}

// The word at the instruction address, which is a multiple of 4.
#[tactic(auto, unfolding(crate::specs::Load::load_of, crate::specs::Load::fetch_of, crate::specs::Access::fetch_access_of))]
pub fn fetch(mem: &[u8], iar: u32) -> Result<u32, Fault>
    ensures { result ≡ fetch_of mem.now iar }
{
    if iar % 4 != 0 {
        return Err(Fault::Unaligned);
    }
    load(mem, iar, Width::Word)
}

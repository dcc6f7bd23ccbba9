// What becomes of an access: the board's rule.
ghost use Rattle.std.specs.Prelude.{◌≡◌};
ghost use Rattle.word.specs.Width.{bytes};
ghost use Rattle.memory.specs.Access.{aligned_of, placed_of, judged, access_of, reaches_past, sized_of};
ghost use Rattle.memory.specs.Store.{block_at};

use word::width::{Width, size};

// Why an access is not served: unaligned is what is not for its address, wherever that is.
#[derive(Clone, Copy)]
pub enum Fault {
    Unaligned,
    Outside,
}

// By width, so that no division is left to run.
fn aligned(address: u32, width: Width) -> bool
    ensures { result ≡ aligned_of address (bytes width) }
{
    match width {
        Width::Byte => true,
        Width::Half => address % 2 == 0,
        Width::Word => address % 4 == 0,
    }
}

// Aligned, or unaligned but wholly inside one aligned group of eight bytes.
fn placed(address: u32, width: Width) -> bool
    ensures { result ≡ placed_of address (bytes width) }
{
    aligned(address, width) | (address as usize % 8 + size(width) <= 8)
}

// By whether it is so placed, then by where it ends in `len` bytes of lent memory.
fn judged(placed: bool, past: usize, len: usize) -> Result<(), Fault>
    ensures { result ≡ judged placed past len }
{
    if !placed {
        return Err(Fault::Unaligned);
    }
    if past <= len {
        Ok(())
    } else {
        Err(Fault::Outside)
    }
}

// An access of a width at an address, in `len` bytes of lent memory.
#[tactic(auto, unfolding(crate::specs::Access::access_of))]
pub fn access_at(len: usize, address: u32, width: Width) -> Result<(), Fault>
    ensures { result ≡ access_of len address (bytes width) }
{
    judged(placed(address, width), address as usize + size(width), len)
}

// An access of a doubleword.
#[tactic(auto, using(crate::proofs::Board::double_by_eight), unfolding(crate::specs::Access::access_of))]
pub fn double_access(len: usize, address: u32) -> Result<(), Fault>
    ensures { result ≡ access_of len address 8 }
{
    judged(address % 8 == 0, address as usize + 8, len)
}

// The aligned block of 32 bytes that holds an address.
#[tactic(auto, using(crate::proofs::Board::block_placed))]
pub fn block_access(len: usize, address: u32) -> Result<(), Fault>
    ensures { result ≡ access_of len (block_at address) 32 }
{
    judged(true, (address / 32 * 32) as usize + 32, len)
}

// Whether an access fell outside and was no alignment interrupt.
pub fn reaches_past<T: Copy>(access: Result<T, Fault>) -> bool
    ensures { result ≡ reaches_past access }
{
    matches!(access, Err(Fault::Outside))
}

// Whether lent memory has a length that the board has.
#[tactic(auto, unfolding(crate::specs::Access::sized_of))]
pub fn sized(len: usize) -> bool
    ensures { result ≡ sized_of len }
{
    (len != 0) & (len % 32 == 0) & (len <= 1_048_576)
}

// Which registers there are, which special-purpose registers have a number, and which forms are valid.
ghost use Rattle.std.specs.Prelude.{◌≡◌, ◌<◌};
ghost use Rattle.insn.specs.Valid.{reg_of, two_regs, three_regs, paired_with, is_vdr, is_spr, read_only, spr_ok, load_form, store_form, load_double_form, is_dd, stack_form, bo_bit, branch_form, is_to, trap_form, mark_form, hint_ok};

use crate::instr::*;
use word::bits::{Bit, bit_at};

// One bit for each register: `matches!` compiles to branches, and each step asks.
pub fn reg_defined(n: u8) -> bool
    ensures { result ≡ reg_of n }
{
    (n < 32) & bit_at(0xFFE4_000F, Bit::of(n))
}

pub fn two_defined(a: u8, b: u8) -> bool
    ensures { result ≡ two_regs a b }
{
    reg_defined(a) & reg_defined(b)
}

pub fn three_defined(a: u8, b: u8, c: u8) -> bool
    ensures { result ≡ three_regs a b c }
{
    two_defined(a, b) & reg_defined(c)
}

// The GPR that holds the low-order word of VDR(n): 31 is paired with 0.
pub fn paired_with(n: u8) -> u8
    ensures { result ≡ paired_with n }
{
    (n % 32 + 1) % 32
}

pub fn is_vdr(n: u8) -> bool
    ensures { result ≡ is_vdr n }
{
    two_defined(n, paired_with(n))
}

// The numbers of Table 1.34. Which register each is says crate machine (`spr`): Reg stands there, above this crate.
#[tactic(auto, unfolding(crate::specs::Valid::is_spr))]
fn is_spr(n: u16) -> bool
    ensures { result ≡ is_spr n }
{
    matches!(
        n,
        1 | 8 | 9 | 22 | 26 | 27 | 61 | 62 | 63 | 272 | 286 | 287 | 308 | 316 | 336 | 340
    )
}

// IVPR, PIR and PVR.
#[tactic(auto, unfolding(crate::specs::Valid::read_only))]
fn read_only(n: u16) -> bool
    ensures { result ≡ read_only n }
{
    matches!(n, 63 | 286 | 287)
}

pub fn spr_ok(op: SprOp, n: u16) -> bool
    ensures { result ≡ spr_ok op n }
{
    match op {
        SprOp::Mfspr => is_spr(n),
        SprOp::Mtspr => is_spr(n) & !read_only(n),
    }
}

pub fn load_form(update: bool, rt: u8, ra: u8) -> bool
    ensures { result ≡ load_form update rt ra }
{
    !update | (ra != 0) & (ra != rt)
}

pub fn store_form(update: bool, ra: u8) -> bool
    ensures { result ≡ store_form update ra }
{
    !update | (ra != 0)
}

pub fn load_double_form(update: bool, dt: u8, ra: u8) -> bool
    ensures { result ≡ load_double_form update dt ra }
{
    load_form(update, dt, ra) & load_form(update, paired_with(dt), ra)
}

// DD_0 and the rest: up for lsku, down for stsku.
pub fn is_dd(op: StackOp, dd: u16) -> bool
    ensures { result ≡ is_dd op dd }
{
    match op {
        StackOp::Lsku => !bit_at(dd as u32, Bit(19)) & (dd != 0),
        StackOp::Stsku => bit_at(dd as u32, Bit(19)),
    }
}

pub fn stack_form(rt: u8, ra: u8) -> bool
    ensures { result ≡ stack_form rt ra }
{
    (rt == ra) & (ra != 0)
}

// Bit n of the five of BO.
pub fn bo_bit(bo: u8, n: u8) -> bool
    requires { n < 5 }
    ensures { result ≡ bo_bit bo n }
{
    bit_at(bo as u32, Bit(27 + n))
}

pub fn branch_form(op: BranchOp, bo: u8) -> bool
    ensures { result ≡ branch_form op bo }
{
    match op {
        BranchOp::Bclr => true,
        BranchOp::Bcctr => bo_bit(bo, 2),
    }
}

pub fn is_to(to: u8) -> bool
    ensures { result ≡ is_to to }
{
    matches!(to, 0 | 31)
}

pub fn trap_form(to: u8, ra: u8, rb: u8) -> bool
    ensures { result ≡ trap_form to ra rb }
{
    is_to(to) & two_defined(ra, rb)
}

pub fn mark_form(to: u8, ra: u8, rb: u8, tg: bool) -> bool
    ensures { result ≡ mark_form to ra rb tg }
{
    tg & (to < 32) & (ra < 32) & (rb < 32)
}

pub fn hint_ok(op: CacheOp, hint: u8) -> bool
    ensures { result ≡ hint_ok op hint }
{
    match op {
        CacheOp::Dcbf => hint < 4,
        CacheOp::Dcbi => hint == 0,
        CacheOp::Dcbt => hint < 32,
        CacheOp::Dcbz => hint == 0,
    }
}

// The opcode of each mnemonic: the primary opcode in bits 0:5 of the D and M forms, the extended one of the others.
// Tables and no discriminants: a number may depend on width and update, and those up to 1014 would make the mnemonics of Instr wider.
ghost use Rattle.std.specs.Prelude.{◌≡◌};
ghost use Rattle.insn.specs.Codes.{arith_imm_code, arith_code, arith_one_code, multiply_code, logic_imm_code, logic_code, logic_one_code, compare_imm_code, compare_code, rotate_code, shift_code, load_code, store_code, load_indexed_code, store_indexed_code, load_double_code, store_double_code, stack_code, rotate_double_code, branch_code, spr_code, move_code, move_fxm, cache_code};

use crate::instr::*;
use word::bits::digit_of;
use word::width::Width;

pub fn arith_imm_code(op: ArithImmOp) -> u32
    ensures { result ≡ arith_imm_code op }
{
    match op {
        ArithImmOp::Addi => 14,
        ArithImmOp::Addis => 15,
        ArithImmOp::Addic => 12,
        ArithImmOp::AddicDot => 13,
        ArithImmOp::Subfic => 8,
    }
}

pub fn arith_code(op: ArithOp) -> u32
    ensures { result ≡ arith_code op }
{
    match op {
        ArithOp::Add => 266,
        ArithOp::Addc => 10,
        ArithOp::Adde => 138,
        ArithOp::Subf => 40,
        ArithOp::Subfc => 8,
        ArithOp::Subfe => 136,
    }
}

pub fn arith_one_code(op: ArithOneOp) -> u32
    ensures { result ≡ arith_one_code op }
{
    match op {
        ArithOneOp::Addme => 234,
        ArithOneOp::Addze => 202,
        ArithOneOp::Subfme => 232,
        ArithOneOp::Subfze => 200,
        ArithOneOp::Neg => 104,
    }
}

pub fn multiply_code(sign: Sign) -> u32
    ensures { result ≡ multiply_code sign }
{
    match sign {
        Sign::Signed => 424,
        Sign::Unsigned => 392,
    }
}

pub fn logic_imm_code(op: LogicImmOp) -> u32
    ensures { result ≡ logic_imm_code op }
{
    match op {
        LogicImmOp::AndiDot => 28,
        LogicImmOp::AndisDot => 29,
        LogicImmOp::Ori => 24,
        LogicImmOp::Oris => 25,
        LogicImmOp::Xori => 26,
        LogicImmOp::Xoris => 27,
    }
}

pub fn logic_code(op: LogicOp) -> u32
    ensures { result ≡ logic_code op }
{
    match op {
        LogicOp::And => 28,
        LogicOp::Andc => 60,
        LogicOp::Eqv => 284,
        LogicOp::Nand => 476,
        LogicOp::Nor => 124,
        LogicOp::Or => 444,
        LogicOp::Orc => 412,
        LogicOp::Xor => 316,
    }
}

pub fn logic_one_code(op: LogicOneOp) -> u32
    ensures { result ≡ logic_one_code op }
{
    match op {
        LogicOneOp::Extsb => 954,
        LogicOneOp::Extsh => 922,
        LogicOneOp::Cntlzw => 26,
    }
}

pub fn compare_imm_code(sign: Sign) -> u32
    ensures { result ≡ compare_imm_code sign }
{
    match sign {
        Sign::Signed => 11,
        Sign::Unsigned => 10,
    }
}

pub fn compare_code(sign: Sign) -> u32
    ensures { result ≡ compare_code sign }
{
    match sign {
        Sign::Signed => 0,
        Sign::Unsigned => 32,
    }
}

pub fn rotate_code(op: RotateOp) -> u32
    ensures { result ≡ rotate_code op }
{
    match op {
        RotateOp::Rlwimi => 20,
        RotateOp::Rlwinm => 21,
    }
}

pub fn shift_code(op: ShiftOp) -> u32
    ensures { result ≡ shift_code op }
{
    match op {
        ShiftOp::Slw => 24,
        ShiftOp::Srw => 536,
        ShiftOp::Sraw => 792,
    }
}

pub fn load_code(width: Width, update: bool) -> u32
    ensures { result ≡ load_code width update }
{
    match width {
        Width::Byte => 34 + digit_of(update),
        Width::Half => 40 + digit_of(update),
        Width::Word => 32 + digit_of(update),
    }
}

pub fn store_code(width: Width, update: bool) -> u32
    ensures { result ≡ store_code width update }
{
    match width {
        Width::Byte => 38 + digit_of(update),
        Width::Half => 44 + digit_of(update),
        Width::Word => 36 + digit_of(update),
    }
}

pub fn load_indexed_code(width: Width) -> u32
    ensures { result ≡ load_indexed_code width }
{
    match width {
        Width::Byte => 87,
        Width::Half => 279,
        Width::Word => 23,
    }
}

pub fn store_indexed_code(width: Width) -> u32
    ensures { result ≡ store_indexed_code width }
{
    match width {
        Width::Byte => 215,
        Width::Half => 407,
        Width::Word => 151,
    }
}

pub fn load_double_code(update: bool) -> u32
    ensures { result ≡ load_double_code update }
{
    if update { 9 } else { 5 }
}

pub fn store_double_code(update: bool) -> u32
    ensures { result ≡ store_double_code update }
{
    if update { 22 } else { 6 }
}

pub fn stack_code(op: StackOp) -> u32
    ensures { result ≡ stack_code op }
{
    match op {
        StackOp::Lsku => 58,
        StackOp::Stsku => 62,
    }
}

// Under primary opcode 30.
pub fn rotate_double_code(op: RotateDoubleOp) -> u32
    ensures { result ≡ rotate_double_code op }
{
    match op {
        RotateDoubleOp::Rldicl => 0,
        RotateDoubleOp::Rldicr => 1,
        RotateDoubleOp::Rldimi => 3,
    }
}

pub fn branch_code(op: BranchOp) -> u32
    ensures { result ≡ branch_code op }
{
    match op {
        BranchOp::Bclr => 16,
        BranchOp::Bcctr => 528,
    }
}

pub fn spr_code(op: SprOp) -> u32
    ensures { result ≡ spr_code op }
{
    match op {
        SprOp::Mfspr => 339,
        SprOp::Mtspr => 467,
    }
}

pub fn move_code(op: MoveOp) -> u32
    ensures { result ≡ move_code op }
{
    match op {
        MoveOp::Mfcr => 19,
        MoveOp::Mtcr0 => 144,
        MoveOp::Mfmsr => 83,
        MoveOp::Mtmsr => 146,
        MoveOp::Wrtee => 131,
    }
}

// FXM: mtcr0 moves field 0 alone.
pub fn move_fxm(op: MoveOp) -> u32
    ensures { result ≡ move_fxm op }
{
    match op {
        MoveOp::Mfcr => 0,
        MoveOp::Mtcr0 => 128,
        MoveOp::Mfmsr => 0,
        MoveOp::Mtmsr => 0,
        MoveOp::Wrtee => 0,
    }
}

pub fn cache_code(op: CacheOp) -> u32
    ensures { result ≡ cache_code op }
{
    match op {
        CacheOp::Dcbf => 86,
        CacheOp::Dcbi => 470,
        CacheOp::Dcbt => 278,
        CacheOp::Dcbz => 1014,
    }
}

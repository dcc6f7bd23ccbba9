// Each form of instruction as its word, or none where it is not valid. Operands come one by one, as both the reader and `write`
// have them apart; a struct for each form would be a second Instr.
ghost use Rattle.std.specs.Prelude.{◌≡◌};
ghost use Rattle.insn.specs.Write.{written_of};
ghost use Rattle.insn.specs.declared.instr.Instr.{Instr};
ghost use Rattle.insn.specs.declared.instr.Arithmetic.{Arithmetic};
ghost use Rattle.insn.specs.declared.instr.Logical.{Logical};
ghost use Rattle.insn.specs.declared.instr.Compare.{Compare};
ghost use Rattle.insn.specs.declared.instr.Rotate.{Rotate};
ghost use Rattle.insn.specs.declared.instr.LoadStore.{LoadStore};
ghost use Rattle.insn.specs.declared.instr.Branch.{Branch};
ghost use Rattle.insn.specs.declared.instr.System.{System};

use crate::codes::*;
use crate::fields::*;
use crate::instr::*;
use crate::valid::*;
use word::bits::{Bit, bits_at};
use word::width::Width;

pub fn arith_imm(op: ArithImmOp, rt: u8, ra: u8, si: u16) -> Option<u32>
    ensures { result ≡ written_of (Instr.Arithmetic (Arithmetic.Immediate op rt ra si)) }
{
    two_defined(rt, ra).then_some(word_d(arith_imm_code(op), rt, ra, si))
}

pub fn arith(op: ArithOp, rt: u8, ra: u8, rb: u8, oe: bool, rc: bool) -> Option<u32>
    ensures { result ≡ written_of (Instr.Arithmetic (Arithmetic.Register op rt ra rb oe rc)) }
{
    three_defined(rt, ra, rb).then_some(word_xo(rt, ra, rb, oe, arith_code(op), rc))
}

pub fn arith_one(op: ArithOneOp, rt: u8, ra: u8, oe: bool, rc: bool) -> Option<u32>
    ensures { result ≡ written_of (Instr.Arithmetic (Arithmetic.One op rt ra oe rc)) }
{
    two_defined(rt, ra).then_some(word_xo(rt, ra, 0, oe, arith_one_code(op), rc))
}

pub fn multiply(sign: Sign, rt: u8, ra: u8, rb: u8, rc: bool) -> Option<u32>
    ensures { result ≡ written_of (Instr.Arithmetic (Arithmetic.Multiply sign rt ra rb rc)) }
{
    three_defined(rt, ra, rb).then_some(word_x(4, rt, ra, rb, multiply_code(sign), rc))
}

pub fn multiply_imm(rt: u8, ra: u8, si: u16) -> Option<u32>
    ensures { result ≡ written_of (Instr.Arithmetic (Arithmetic.MultiplyImm rt ra si)) }
{
    two_defined(rt, ra).then_some(word_d(7, rt, ra, si))
}

pub fn multiply_low(rt: u8, ra: u8, rb: u8, oe: bool, rc: bool) -> Option<u32>
    ensures { result ≡ written_of (Instr.Arithmetic (Arithmetic.MultiplyLow rt ra rb oe rc)) }
{
    three_defined(rt, ra, rb).then_some(word_xo(rt, ra, rb, oe, 235, rc))
}

pub fn logic_imm(op: LogicImmOp, rs: u8, ra: u8, ui: u16) -> Option<u32>
    ensures { result ≡ written_of (Instr.Logical (Logical.Immediate op rs ra ui)) }
{
    two_defined(rs, ra).then_some(word_d(logic_imm_code(op), rs, ra, ui))
}

pub fn logic(op: LogicOp, rs: u8, ra: u8, rb: u8, rc: bool) -> Option<u32>
    ensures { result ≡ written_of (Instr.Logical (Logical.Register op rs ra rb rc)) }
{
    three_defined(rs, ra, rb).then_some(word_x(31, rs, ra, rb, logic_code(op), rc))
}

pub fn logic_one(op: LogicOneOp, rs: u8, ra: u8, rc: bool) -> Option<u32>
    ensures { result ≡ written_of (Instr.Logical (Logical.One op rs ra rc)) }
{
    two_defined(rs, ra).then_some(word_x(31, rs, ra, 0, logic_one_code(op), rc))
}

pub fn compare_imm(sign: Sign, ra: u8, imm: u16) -> Option<u32>
    ensures { result ≡ written_of (Instr.Compare (Compare.Immediate sign ra imm)) }
{
    reg_defined(ra).then_some(word_d(compare_imm_code(sign), 0, ra, imm))
}

pub fn compare(sign: Sign, ra: u8, rb: u8) -> Option<u32>
    ensures { result ≡ written_of (Instr.Compare (Compare.Register sign ra rb)) }
{
    two_defined(ra, rb).then_some(word_x(31, 0, ra, rb, compare_code(sign), false))
}

pub fn rotate_imm(op: RotateOp, rs: u8, ra: u8, sh: u16, mb: u8, me: u8, rc: bool) -> Option<u32>
    ensures { result ≡ written_of (Instr.Rotate (Rotate.Immediate op rs ra sh mb me rc)) }
{
    let valid = two_defined(rs, ra) & (sh < 32) & (mb < 32) & (me < 32);
    valid.then_some(word_m(rotate_code(op), rs, ra, sh, mb, me, rc))
}

pub fn rotate(rs: u8, ra: u8, rb: u8, mb: u8, me: u8, rc: bool) -> Option<u32>
    ensures { result ≡ written_of (Instr.Rotate (Rotate.Register rs ra rb mb me rc)) }
{
    let valid = three_defined(rs, ra, rb) & (mb < 32) & (me < 32);
    valid.then_some(word_m(23, rs, ra, rb as u16, mb, me, rc))
}

pub fn shift(op: ShiftOp, rs: u8, ra: u8, rb: u8, rc: bool) -> Option<u32>
    ensures { result ≡ written_of (Instr.Rotate (Rotate.Shift op rs ra rb rc)) }
{
    three_defined(rs, ra, rb).then_some(word_x(31, rs, ra, rb, shift_code(op), rc))
}

pub fn srawi(rs: u8, ra: u8, sh: u8, rc: bool) -> Option<u32>
    ensures { result ≡ written_of (Instr.Rotate (Rotate.Srawi rs ra sh rc)) }
{
    (two_defined(rs, ra) & (sh < 32)).then_some(word_x(31, rs, ra, sh, 824, rc))
}

pub fn rotate_double(op: RotateDoubleOp, ds: u8, da: u8, sh: u8, mb: u8, rc: bool) -> Option<u32>
    ensures { result ≡ written_of (Instr.Rotate (Rotate.Double op ds da sh mb rc)) }
{
    let valid = is_vdr(ds) & is_vdr(da) & (sh < 64) & (mb < 64);
    let sh_low = bits_at(sh as u32, Bit(27), Bit(31));
    let sh_first = bits_at(sh as u32, Bit(26), Bit(26));
    let mb_low = bits_at(mb as u32, Bit(27), Bit(31));
    let mb_first = bits_at(mb as u32, Bit(26), Bit(26));
    let md = rotate_double_code(op);
    valid.then_some(word_md(ds, da, sh_low, mb_low, mb_first, md, sh_first, rc))
}

pub fn load(width: Width, update: bool, rt: u8, ra: u8, d: u16) -> Option<u32>
    ensures { result ≡ written_of (Instr.LoadStore (LoadStore.Load width update rt ra d)) }
{
    let valid = two_defined(rt, ra) & load_form(update, rt, ra);
    valid.then_some(word_d(load_code(width, update), rt, ra, d))
}

pub fn load_indexed(width: Width, rt: u8, ra: u8, rb: u8) -> Option<u32>
    ensures { result ≡ written_of (Instr.LoadStore (LoadStore.LoadIndexed width rt ra rb)) }
{
    three_defined(rt, ra, rb).then_some(word_x(31, rt, ra, rb, load_indexed_code(width), false))
}

pub fn store(width: Width, update: bool, rs: u8, ra: u8, d: u16) -> Option<u32>
    ensures { result ≡ written_of (Instr.LoadStore (LoadStore.Store width update rs ra d)) }
{
    let valid = two_defined(rs, ra) & store_form(update, ra);
    valid.then_some(word_d(store_code(width, update), rs, ra, d))
}

pub fn store_indexed(width: Width, rs: u8, ra: u8, rb: u8) -> Option<u32>
    ensures { result ≡ written_of (Instr.LoadStore (LoadStore.StoreIndexed width rs ra rb)) }
{
    three_defined(rs, ra, rb).then_some(word_x(31, rs, ra, rb, store_indexed_code(width), false))
}

pub fn load_double(update: bool, dt: u8, ra: u8, d: u16) -> Option<u32>
    ensures { result ≡ written_of (Instr.LoadStore (LoadStore.LoadDouble update dt ra d)) }
{
    let valid = is_vdr(dt) & reg_defined(ra) & load_double_form(update, dt, ra);
    valid.then_some(word_d(load_double_code(update), dt, ra, d))
}

pub fn store_double(update: bool, ds: u8, ra: u8, d: u16) -> Option<u32>
    ensures { result ≡ written_of (Instr.LoadStore (LoadStore.StoreDouble update ds ra d)) }
{
    let valid = is_vdr(ds) & reg_defined(ra) & store_form(update, ra);
    valid.then_some(word_d(store_double_code(update), ds, ra, d))
}

pub fn stack(op: StackOp, rt: u8, ra: u8, dd: u16) -> Option<u32>
    ensures { result ≡ written_of (Instr.Stack dd op rt ra) }
{
    let valid = (dd < 0x2000) & (two_defined(rt, ra) & stack_form(rt, ra) & is_dd(op, dd));
    valid.then_some(word_dd(stack_code(op), rt, ra, dd))
}

pub fn branch(aa: bool, lk: bool, li: u32) -> Option<u32>
    ensures { result ≡ written_of (Instr.Branch (Branch.Always aa lk li)) }
{
    (li < 0x100_0000).then_some(word_i(li, aa, lk))
}

pub fn branch_if(bo: u8, bi: u8, bd: u16, aa: bool, lk: bool) -> Option<u32>
    ensures { result ≡ written_of (Instr.Branch (Branch.Conditional bo bi bd aa lk)) }
{
    ((bo < 32) & (bi < 4) & (bd < 0x4000)).then_some(word_b(bo, bi, bd, aa, lk))
}

pub fn branch_to(op: BranchOp, bo: u8, bi: u8, bh: u8, lk: bool) -> Option<u32>
    ensures { result ≡ written_of (Instr.Branch (Branch.Register op bo bi bh lk)) }
{
    let valid = (bo < 32) & (bi < 4) & (bh < 4) & branch_form(op, bo);
    valid.then_some(word_x(19, bo, bi, bh, branch_code(op), lk))
}

pub fn trap(to: u8, ra: u8, rb: u8, tg: bool) -> Option<u32>
    ensures { result ≡ written_of (Instr.Trap to ra rb tg) }
{
    let valid = mark_form(to, ra, rb, tg) | trap_form(to, ra, rb);
    valid.then_some(word_x(31, to, ra, rb, 4, tg))
}

pub fn move_spr(op: SprOp, rt: u8, spr: u16) -> Option<u32>
    ensures { result ≡ written_of (Instr.System (System.Spr op rt spr)) }
{
    let low = bits_at(spr as u32, Bit(27), Bit(31)) as u8;
    let high = bits_at(spr as u32, Bit(22), Bit(26)) as u8;
    (reg_defined(rt) & spr_ok(op, spr)).then_some(word_x(31, rt, low, high, spr_code(op), false))
}

pub fn move_reg(op: MoveOp, rt: u8) -> Option<u32>
    ensures { result ≡ written_of (Instr.System (System.Move op rt)) }
{
    reg_defined(rt).then_some(word_xfx(rt, move_fxm(op), move_code(op)))
}

pub fn wrteei(e: bool) -> Option<u32>
    ensures { result ≡ written_of (Instr.System (System.Wrteei e)) }
{
    Some(word_e(e, 163))
}

pub fn rfi() -> Option<u32>
    ensures { result ≡ written_of (Instr.System System.Rfi) }
{
    Some(word_x(19, 0, 0, 0, 50, false))
}

pub fn sync() -> Option<u32>
    ensures { result ≡ written_of (Instr.System System.Sync) }
{
    Some(word_x(31, 0, 0, 0, 598, false))
}

pub fn cache(op: CacheOp, hint: u8, ra: u8, rb: u8) -> Option<u32>
    ensures { result ≡ written_of (Instr.Cache op hint ra rb) }
{
    (hint_ok(op, hint) & two_defined(ra, rb)).then_some(word_x(
        31,
        hint,
        ra,
        rb,
        cache_code(op),
        false,
    ))
}

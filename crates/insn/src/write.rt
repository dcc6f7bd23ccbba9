// An instruction as its word, or none where it is not valid: on a 42X by family, then by form.
ghost use Rattle.std.specs.Prelude.{◌≡◌};
ghost use Rattle.insn.specs.Write.{written_of, written_on};
ghost use Rattle.insn.specs.declared.instr.Instr.{Instr};

use crate::forms;
use crate::instr::*;
use crate::profile::{Profile, has};

pub fn write(profile: Profile, i: Instr) -> Option<u32>
    ensures { result ≡ written_on profile i }
{
    if has(profile, i) { write_42x(i) } else { None }
}

pub fn write_42x(i: Instr) -> Option<u32>
    ensures { result ≡ written_of i }
{
    match i {
        Instr::Arithmetic(a) => arithmetic(a),
        Instr::Logical(l) => logical(l),
        Instr::Compare(c) => compare(c),
        Instr::Rotate(r) => rotate(r),
        Instr::LoadStore(s) => load_store(s),
        Instr::Stack { op, rt, ra, dd } => forms::stack(op, rt, ra, dd),
        Instr::Branch(b) => branch(b),
        Instr::Trap { to, ra, rb, tg } => forms::trap(to, ra, rb, tg),
        Instr::System(s) => system(s),
        Instr::Cache { op, hint, ra, rb } => forms::cache(op, hint, ra, rb),
    }
}

fn arithmetic(a: Arithmetic) -> Option<u32>
    ensures { result ≡ written_of (Instr.Arithmetic a) }
{
    match a {
        Arithmetic::Immediate { op, rt, ra, si } => forms::arith_imm(op, rt, ra, si),
        Arithmetic::Register {
            op,
            rt,
            ra,
            rb,
            oe,
            rc,
        } => forms::arith(op, rt, ra, rb, oe, rc),
        Arithmetic::One { op, rt, ra, oe, rc } => forms::arith_one(op, rt, ra, oe, rc),
        Arithmetic::Multiply {
            sign,
            rt,
            ra,
            rb,
            rc,
        } => forms::multiply(sign, rt, ra, rb, rc),
        Arithmetic::MultiplyImm { rt, ra, si } => forms::multiply_imm(rt, ra, si),
        Arithmetic::MultiplyLow { rt, ra, rb, oe, rc } => forms::multiply_low(rt, ra, rb, oe, rc),
    }
}

fn logical(l: Logical) -> Option<u32>
    ensures { result ≡ written_of (Instr.Logical l) }
{
    match l {
        Logical::Immediate { op, rs, ra, ui } => forms::logic_imm(op, rs, ra, ui),
        Logical::Register { op, rs, ra, rb, rc } => forms::logic(op, rs, ra, rb, rc),
        Logical::One { op, rs, ra, rc } => forms::logic_one(op, rs, ra, rc),
    }
}

fn compare(c: Compare) -> Option<u32>
    ensures { result ≡ written_of (Instr.Compare c) }
{
    match c {
        Compare::Immediate { sign, ra, imm } => forms::compare_imm(sign, ra, imm),
        Compare::Register { sign, ra, rb } => forms::compare(sign, ra, rb),
    }
}

fn rotate(r: Rotate) -> Option<u32>
    ensures { result ≡ written_of (Instr.Rotate r) }
{
    match r {
        Rotate::Immediate {
            op,
            rs,
            ra,
            sh,
            mb,
            me,
            rc,
        } => forms::rotate_imm(op, rs, ra, sh, mb, me, rc),
        Rotate::Register {
            rs,
            ra,
            rb,
            mb,
            me,
            rc,
        } => forms::rotate(rs, ra, rb, mb, me, rc),
        Rotate::Shift { op, rs, ra, rb, rc } => forms::shift(op, rs, ra, rb, rc),
        Rotate::Srawi { rs, ra, sh, rc } => forms::srawi(rs, ra, sh, rc),
        Rotate::Double {
            op,
            ds,
            da,
            sh,
            mb,
            rc,
        } => forms::rotate_double(op, ds, da, sh, mb, rc),
    }
}

fn load_store(s: LoadStore) -> Option<u32>
    ensures { result ≡ written_of (Instr.LoadStore s) }
{
    match s {
        LoadStore::Load {
            width,
            update,
            rt,
            ra,
            d,
        } => forms::load(width, update, rt, ra, d),
        LoadStore::LoadIndexed { width, rt, ra, rb } => forms::load_indexed(width, rt, ra, rb),
        LoadStore::Store {
            width,
            update,
            rs,
            ra,
            d,
        } => forms::store(width, update, rs, ra, d),
        LoadStore::StoreIndexed { width, rs, ra, rb } => forms::store_indexed(width, rs, ra, rb),
        LoadStore::LoadDouble { update, dt, ra, d } => forms::load_double(update, dt, ra, d),
        LoadStore::StoreDouble { update, ds, ra, d } => forms::store_double(update, ds, ra, d),
    }
}

fn branch(b: Branch) -> Option<u32>
    ensures { result ≡ written_of (Instr.Branch b) }
{
    match b {
        Branch::Always { aa, lk, li } => forms::branch(aa, lk, li),
        Branch::Conditional { bo, bi, bd, aa, lk } => forms::branch_if(bo, bi, bd, aa, lk),
        Branch::Register { op, bo, bi, bh, lk } => forms::branch_to(op, bo, bi, bh, lk),
    }
}

fn system(s: System) -> Option<u32>
    ensures { result ≡ written_of (Instr.System s) }
{
    match s {
        System::Spr { op, rt, spr } => forms::move_spr(op, rt, spr),
        System::Move { op, rt } => forms::move_reg(op, rt),
        System::Wrteei { e } => forms::wrteei(e),
        System::Rfi => forms::rfi(),
        System::Sync => forms::sync(),
    }
}

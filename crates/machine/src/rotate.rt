// The rotates and shifts.
ghost use Rattle.std.specs.Prelude.{◌≡◌, ◌%◌, ◌^◌, ◌<◌};
ghost use Rattle.std.specs.Int.Bits.{bit_and};
ghost use Rattle.word.specs.Rotate.{rotl};
ghost use Rattle.word.specs.Shift.{sraw};
ghost use Rattle.word.specs.Double.{rotl64};
ghost use Rattle.machine.specs.State.{gpr_of, vdr_of};
ghost use Rattle.machine.specs.Result.{result_of, double_result_of};
ghost use Rattle.machine.specs.Rotate.{mask_for, merged, merged_double, shifted_of, shift_of, rotate_of};

use crate::state::State;
use insn::instr::{Rotate, RotateDoubleOp, RotateOp, ShiftOp};
use word::bits::{Bit, Shift};
use word::double::{insert_double, mask_double, rotate_double};
use word::rotate::{insert, mask_of, rotate_left};
use word::shift::{Shifted, amount, left, right, right_signed};

fn mask_for(mb: u8, me: u8) -> u32
    ensures { result ≡ mask_for mb me }
{
    mask_of(Bit::of(mb), Bit::of(me))
}

fn merge(op: RotateOp, r: u32, m: u32, a: u32) -> u32
    ensures { result ≡ merged op r m a }
{
    match op {
        RotateOp::Rlwimi => insert(m, r, a),
        RotateOp::Rlwinm => r & m,
    }
}

// MASK(MB, 63), MASK(0, ME) and MASK(MB, ¬ n).
fn merge_double(op: RotateDoubleOp, r: u64, n: u8, mb: u8, a: u64) -> u64
    requires { n < 64 }
    ensures { result ≡ merged_double op r n mb a }
{
    match op {
        RotateDoubleOp::Rldicl => r & mask_double(mb, 63),
        RotateDoubleOp::Rldicr => r & mask_double(0, mb),
        RotateDoubleOp::Rldimi => insert_double(mask_double(mb, !n), r, a),
    }
}

impl State {
    // A signed shift's value in RA, and its carry in CA.
    #[tactic(auto, unfolding(crate::specs::Rotate::shifted_of))]
    fn finish_shift(self, ra: u8, shifted: Shifted, rc: bool) -> State
        ensures { result ≡ shifted_of self ra shifted rc }
    {
        self.set_carry(true, shifted.carry)
            .finish(ra, shifted.value, rc)
    }

    #[tactic(auto, unfolding(crate::specs::Rotate::shift_of))]
    fn shift(self, op: ShiftOp, rs: u8, ra: u8, rb: u8, rc: bool) -> State
        ensures { result ≡ shift_of self op rs ra rb rc }
    {
        let got = self.pair(rs, rb);
        let s = got.a;
        let n = amount(got.b);
        match op {
            ShiftOp::Slw => self.finish(ra, left(s, n), rc),
            ShiftOp::Srw => self.finish(ra, right(s, n), rc),
            ShiftOp::Sraw => self.finish_shift(ra, right_signed(s, n), rc),
        }
    }

    fn rotate_imm(self, op: RotateOp, rs: u8, ra: u8, sh: u16, mb: u8, me: u8, rc: bool) -> State
        ensures { result ≡ result_of self ra (merged op (rotl (gpr_of self rs) (sh % 2 ^ 5)) (mask_for mb me) (gpr_of self ra)) rc }
    {
        let got = self.pair(rs, ra);
        let r = rotate_left(got.a, Shift((sh % 32) as u8));
        let v = merge(op, r, mask_for(mb, me), got.b);
        self.finish(ra, v, rc)
    }

    fn rotate_reg(self, rs: u8, ra: u8, rb: u8, mb: u8, me: u8, rc: bool) -> State
        ensures { result ≡ result_of self ra (bit_and (rotl (gpr_of self rs) (gpr_of self rb % 2 ^ 5)) (mask_for mb me)) rc }
    {
        let got = self.pair(rs, rb);
        let n = (got.b % 32) as u8;
        let v = rotate_left(got.a, Shift(n)) & mask_for(mb, me);
        self.finish(ra, v, rc)
    }

    fn srawi(self, rs: u8, ra: u8, sh: u8, rc: bool) -> State
        ensures { result ≡ shifted_of self ra (sraw (gpr_of self rs) (sh % 2 ^ 5)) rc }
    {
        let shifted = right_signed(self.reg(rs), Shift(sh % 32));
        self.finish_shift(ra, shifted, rc)
    }

    fn rotate_double(self, op: RotateDoubleOp, ds: u8, da: u8, sh: u8, mb: u8, rc: bool) -> State
        ensures { result ≡ double_result_of self da (merged_double op (rotl64 (vdr_of self ds) (sh % 2 ^ 6)) (sh % 2 ^ 6) mb (vdr_of self da)) rc }
    {
        let n = sh % 64;
        let r = rotate_double(self.vdr(ds), sh);
        let v = merge_double(op, r, n, mb, self.vdr(da));
        self.finish_double(da, v, rc)
    }

    #[tactic(auto, unfolding(crate::specs::Rotate::rotate_of))]
    pub fn rotate(self, i: Rotate) -> State
        ensures { result ≡ rotate_of self i }
    {
        match i {
            Rotate::Immediate {
                op,
                rs,
                ra,
                sh,
                mb,
                me,
                rc,
            } => self.rotate_imm(op, rs, ra, sh, mb, me, rc),
            Rotate::Register {
                rs,
                ra,
                rb,
                mb,
                me,
                rc,
            } => self.rotate_reg(rs, ra, rb, mb, me, rc),
            Rotate::Shift { op, rs, ra, rb, rc } => self.shift(op, rs, ra, rb, rc),
            Rotate::Srawi { rs, ra, sh, rc } => self.srawi(rs, ra, sh, rc),
            Rotate::Double {
                op,
                ds,
                da,
                sh,
                mb,
                rc,
            } => self.rotate_double(op, ds, da, sh, mb, rc),
        }
    }
}

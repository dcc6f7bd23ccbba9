// The arithmetic instructions.
ghost use Rattle.std.specs.Prelude.{◌≡◌, true, false};
ghost use Rattle.word.specs.Logical.{inv};
ghost use Rattle.word.specs.Sum.{sum_of};
ghost use Rattle.word.specs.Sign.{exts};
ghost use Rattle.word.specs.Multiply.{low_word, mullw};
ghost use Rattle.machine.specs.State.{gpr_of, base_of};
ghost use Rattle.machine.specs.Result.{carry_of, result_of};
ghost use Rattle.machine.specs.Arithmetic.{imm_sum, imm_carries, imm_records, reg_sum, reg_carries, one_sum, one_carries, product, summed_of, multiplied_of, arithmetic_of};

use crate::state::State;
use insn::instr::{ArithImmOp, ArithOneOp, ArithOp, Arithmetic, Sign};
use word::bits::{Bit, field_at};
use word::multiply::{Product, low_signed, low_unsigned, low_word, multiply};
use word::sign::extend_half;
use word::sum::{Sum, add, plus};

// The sum of addme, addze, subfme, subfze and neg, of (RA) and CA.
fn one_sum(op: ArithOneOp, a: u32, ca: bool) -> Sum
    ensures { result ≡ one_sum op a ca }
{
    match op {
        ArithOneOp::Addme => add(a, 0xFFFF_FFFF, ca),
        ArithOneOp::Addze => add(a, 0, ca),
        ArithOneOp::Subfme => add(!a, 0xFFFF_FFFF, ca),
        ArithOneOp::Subfze => add(!a, 0, ca),
        ArithOneOp::Neg => add(!a, 0, true),
    }
}

fn one_carries(op: ArithOneOp) -> bool
    ensures { result ≡ one_carries op }
{
    !matches!(op, ArithOneOp::Neg)
}

fn product_of(sign: Sign, a: u32, b: u32) -> u32
    ensures { result ≡ product sign a b }
{
    match sign {
        Sign::Signed => low_signed(a, b),
        Sign::Unsigned => low_unsigned(a, b),
    }
}

impl State {
    // A sum in RT, with CA, OV and CR0 as asked.
    #[tactic(auto, unfolding(crate::specs::Arithmetic::summed_of))]
    fn finish_sum(self, rt: u8, sum: Sum, carries: bool, oe: bool, rc: bool) -> State
        ensures { result ≡ summed_of self rt sum carries oe rc }
    {
        self.set_carry(carries, sum.carry)
            .set_overflow(oe, sum.overflow)
            .finish(rt, sum.value, rc)
    }

    // The same for a sum with an immediate that writes CA and not OV.
    fn finish_carry(self, rt: u8, sum: Sum, rc: bool) -> State
        ensures { result ≡ summed_of self rt sum true false rc }
    {
        self.finish_sum(rt, sum, true, false, rc)
    }

    // addi and addis add to (RA|0), the others to (RA) or its complement.
    #[tactic(auto, unfolding(crate::specs::Arithmetic::summed_of, crate::specs::Result::carried_of, crate::specs::Result::overflowed_of))]
    fn arith_imm(self, op: ArithImmOp, rt: u8, ra: u8, si: u16) -> State
        ensures { result ≡ summed_of self rt (imm_sum op (base_of self ra) (gpr_of self ra) si) (imm_carries op) false (imm_records op) }
    {
        let low = extend_half(si);
        let high = field_at(Bit(0), Bit(15), si as u32);
        match op {
            ArithImmOp::Addi => self.finish(rt, plus(self.base(ra), low), false),
            ArithImmOp::Addis => self.finish(rt, plus(self.base(ra), high), false),
            ArithImmOp::Addic => self.finish_carry(rt, add(self.reg(ra), low, false), false),
            ArithImmOp::AddicDot => self.finish_carry(rt, add(self.reg(ra), low, false), true),
            ArithImmOp::Subfic => self.finish_carry(rt, add(!self.reg(ra), low, true), false),
        }
    }

    // The sum of (RA), (RB) and a carry.
    fn add_regs(self, rt: u8, ra: u8, rb: u8, ca: bool, carries: bool, oe: bool, rc: bool) -> State
        ensures { result ≡ summed_of self rt (sum_of (gpr_of self ra) (gpr_of self rb) ca) carries oe rc }
    {
        let got = self.pair(ra, rb);
        self.finish_sum(rt, add(got.a, got.b, ca), carries, oe, rc)
    }

    // The sum of the complement of (RA), (RB) and a carry: a function of its own, since the mnemonic is to choose before registers are read (docs/SPEED.md).
    fn sub_regs(self, rt: u8, ra: u8, rb: u8, ca: bool, carries: bool, oe: bool, rc: bool) -> State
        ensures { result ≡ summed_of self rt (sum_of (inv (gpr_of self ra)) (gpr_of self rb) ca) carries oe rc }
    {
        let got = self.pair(ra, rb);
        self.finish_sum(rt, add(!got.a, got.b, ca), carries, oe, rc)
    }

    fn arith_reg(self, op: ArithOp, rt: u8, ra: u8, rb: u8, oe: bool, rc: bool) -> State
        ensures { result ≡ summed_of self rt (reg_sum op (gpr_of self ra) (gpr_of self rb) (carry_of self)) (reg_carries op) oe rc }
    {
        let ca = self.carry();
        match op {
            ArithOp::Add => self.add_regs(rt, ra, rb, false, false, oe, rc),
            ArithOp::Addc => self.add_regs(rt, ra, rb, false, true, oe, rc),
            ArithOp::Adde => self.add_regs(rt, ra, rb, ca, true, oe, rc),
            ArithOp::Subf => self.sub_regs(rt, ra, rb, true, false, oe, rc),
            ArithOp::Subfc => self.sub_regs(rt, ra, rb, true, true, oe, rc),
            ArithOp::Subfe => self.sub_regs(rt, ra, rb, ca, true, oe, rc),
        }
    }

    fn arith_one(self, op: ArithOneOp, rt: u8, ra: u8, oe: bool, rc: bool) -> State
        ensures { result ≡ summed_of self rt (one_sum op (gpr_of self ra) (carry_of self)) (one_carries op) oe rc }
    {
        let sum = one_sum(op, self.reg(ra), self.carry());
        self.finish_sum(rt, sum, one_carries(op), oe, rc)
    }

    fn multiply(self, sign: Sign, rt: u8, ra: u8, rb: u8, rc: bool) -> State
        ensures { result ≡ result_of self rt (product sign (gpr_of self ra) (gpr_of self rb)) rc }
    {
        let got = self.pair(ra, rb);
        let v = product_of(sign, got.a, got.b);
        self.finish(rt, v, rc)
    }

    fn multiply_imm(self, rt: u8, ra: u8, si: u16) -> State
        ensures { result ≡ result_of self rt (low_word (gpr_of self ra) (exts 16 si)) false }
    {
        let v = low_word(self.reg(ra), extend_half(si));
        self.finish(rt, v, false)
    }

    // A product in RT, with OV and CR0 as asked.
    #[tactic(auto, unfolding(crate::specs::Arithmetic::multiplied_of))]
    fn finish_product(self, rt: u8, product: Product, oe: bool, rc: bool) -> State
        ensures { result ≡ multiplied_of self rt product oe rc }
    {
        self.set_overflow(oe, product.overflow)
            .finish(rt, product.value, rc)
    }

    fn multiply_low(self, rt: u8, ra: u8, rb: u8, oe: bool, rc: bool) -> State
        ensures { result ≡ multiplied_of self rt (mullw (gpr_of self ra) (gpr_of self rb)) oe rc }
    {
        let got = self.pair(ra, rb);
        self.finish_product(rt, multiply(got.a, got.b), oe, rc)
    }

    #[tactic(auto, unfolding(crate::specs::Arithmetic::arithmetic_of))]
    pub fn arithmetic(self, i: Arithmetic) -> State
        ensures { result ≡ arithmetic_of self i }
    {
        match i {
            Arithmetic::Immediate { op, rt, ra, si } => self.arith_imm(op, rt, ra, si),
            Arithmetic::Register {
                op,
                rt,
                ra,
                rb,
                oe,
                rc,
            } => self.arith_reg(op, rt, ra, rb, oe, rc),
            Arithmetic::One { op, rt, ra, oe, rc } => self.arith_one(op, rt, ra, oe, rc),
            Arithmetic::Multiply {
                sign,
                rt,
                ra,
                rb,
                rc,
            } => self.multiply(sign, rt, ra, rb, rc),
            Arithmetic::MultiplyImm { rt, ra, si } => self.multiply_imm(rt, ra, si),
            Arithmetic::MultiplyLow { rt, ra, rb, oe, rc } => self.multiply_low(rt, ra, rb, oe, rc),
        }
    }
}

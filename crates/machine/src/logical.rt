// The logical instructions.
ghost use Rattle.std.specs.Prelude.{◌≡◌};
ghost use Rattle.machine.specs.State.{gpr_of};
ghost use Rattle.machine.specs.Result.{result_of};
ghost use Rattle.machine.specs.Logical.{logic_imm, logic_records, logic_reg, logic_one, logical_of};

use crate::state::State;
use insn::instr::{LogicImmOp, LogicOneOp, LogicOp, Logical};
use word::bits::{Bit, field_at};
use word::logical;
use word::sign::{extend_byte, extend_half};

// The result of andi., andis., ori, oris, xori and xoris, of (RS) and UI.
fn logic_imm(op: LogicImmOp, s: u32, ui: u16) -> u32
    ensures { result ≡ logic_imm op s ui }
{
    match op {
        LogicImmOp::AndiDot => s & ui as u32,
        LogicImmOp::AndisDot => s & field_at(Bit(0), Bit(15), ui as u32),
        LogicImmOp::Ori => s | ui as u32,
        LogicImmOp::Oris => s | field_at(Bit(0), Bit(15), ui as u32),
        LogicImmOp::Xori => s ^ ui as u32,
        LogicImmOp::Xoris => s ^ field_at(Bit(0), Bit(15), ui as u32),
    }
}

fn logic_records(op: LogicImmOp) -> bool
    ensures { result ≡ logic_records op }
{
    matches!(op, LogicImmOp::AndiDot | LogicImmOp::AndisDot)
}

// The result of and, andc, eqv, nand, nor, or, orc and xor, of (RS) and (RB).
fn logic_reg(op: LogicOp, s: u32, b: u32) -> u32
    ensures { result ≡ logic_reg op s b }
{
    match op {
        LogicOp::And => logical::and(s, b),
        LogicOp::Andc => logical::andc(s, b),
        LogicOp::Eqv => logical::eqv(s, b),
        LogicOp::Nand => logical::nand(s, b),
        LogicOp::Nor => logical::nor(s, b),
        LogicOp::Or => logical::or(s, b),
        LogicOp::Orc => logical::orc(s, b),
        LogicOp::Xor => logical::xor(s, b),
    }
}

// The result of extsb, extsh and cntlzw, of (RS).
fn logic_one(op: LogicOneOp, s: u32) -> u32
    ensures { result ≡ logic_one op s }
{
    match op {
        LogicOneOp::Extsb => extend_byte((s % 0x100) as u8),
        LogicOneOp::Extsh => extend_half((s % 0x1_0000) as u16),
        LogicOneOp::Cntlzw => logical::count_zeros(s),
    }
}

impl State {
    fn logical_imm(self, op: LogicImmOp, rs: u8, ra: u8, ui: u16) -> State
        ensures { result ≡ result_of self ra (logic_imm op (gpr_of self rs) ui) (logic_records op) }
    {
        let v = logic_imm(op, self.reg(rs), ui);
        self.finish(ra, v, logic_records(op))
    }

    fn logical_reg(self, op: LogicOp, rs: u8, ra: u8, rb: u8, rc: bool) -> State
        ensures { result ≡ result_of self ra (logic_reg op (gpr_of self rs) (gpr_of self rb)) rc }
    {
        let got = self.pair(rs, rb);
        let v = logic_reg(op, got.a, got.b);
        self.finish(ra, v, rc)
    }

    fn logical_one(self, op: LogicOneOp, rs: u8, ra: u8, rc: bool) -> State
        ensures { result ≡ result_of self ra (logic_one op (gpr_of self rs)) rc }
    {
        let v = logic_one(op, self.reg(rs));
        self.finish(ra, v, rc)
    }

    #[tactic(auto, unfolding(crate::specs::Logical::logical_of))]
    pub fn logical(self, i: Logical) -> State
        ensures { result ≡ logical_of self i }
    {
        match i {
            Logical::Immediate { op, rs, ra, ui } => self.logical_imm(op, rs, ra, ui),
            Logical::Register { op, rs, ra, rb, rc } => self.logical_reg(op, rs, ra, rb, rc),
            Logical::One { op, rs, ra, rc } => self.logical_one(op, rs, ra, rc),
        }
    }
}

// Branches.
ghost use Rattle.std.specs.Prelude.{◌≡◌, ◌*◌, ◌%◌, ◌^◌};
ghost use Rattle.word.specs.Sign.{exts};
ghost use Rattle.machine.specs.State.{with};
ghost use Rattle.machine.specs.declared.state.Reg.{Reg};
ghost use Rattle.machine.specs.Branch.{target_at, linked_of, ctr_after, taken_of, branched_of, register_target, branch_of};

use crate::state::{Reg, State};
use insn::instr::{Branch, BranchOp};
use word::bits::{Bit, bit_at};
use word::shift::select;
use word::sign::{extend_26, extend_half};
use word::sum::plus;

#[tactic(auto, unfolding(crate::specs::Branch::ctr_after))]
fn ctr_after(ctr: u32, bo: u8) -> u32
    ensures { result ≡ ctr_after ctr bo }
{
    select(bit_at(bo as u32, Bit(29)), ctr, plus(ctr, 0xFFFF_FFFF))
}

// Whether the branch is taken, by BO, BI, the new CTR and CR.
#[tactic(auto, unfolding(crate::specs::Branch::taken_of))]
fn taken(bo: u8, bi: u8, ctr: u32, cr: u32) -> bool
    ensures { result ≡ taken_of bo bi ctr cr }
{
    let bo0 = bit_at(bo as u32, Bit(27));
    let bo1 = bit_at(bo as u32, Bit(28));
    let bo2 = bit_at(bo as u32, Bit(29));
    let bo3 = bit_at(bo as u32, Bit(30));
    let condition = bit_at(cr, Bit::of(bi));
    (bo2 | ((ctr == 0) == bo3)) & (bo0 | (condition == bo1))
}

impl State {
    fn target(self, aa: bool, d: u32) -> u32
        ensures { result ≡ target_at self aa d }
    {
        plus(select(aa, 0, self.iar), d)
    }

    #[tactic(auto, unfolding(crate::specs::Branch::linked_of))]
    fn link(self, lk: bool) -> State
        ensures { result ≡ linked_of self lk }
    {
        if lk {
            self.set(Reg::Lr, self.in_line())
        } else {
            self
        }
    }

    #[tactic(auto, unfolding(crate::specs::Branch::branched_of))]
    fn branch_if(self, bo: u8, bi: u8, target: u32, lk: bool) -> State
        ensures { result ≡ branched_of self bo bi target lk }
    {
        let ctr = ctr_after(self.ctr, bo);
        let iar = select(taken(bo, bi, ctr, self.cr), target, self.in_line());
        self.link(lk).set(Reg::Ctr, ctr).set(Reg::Iar, iar)
    }

    fn branch_always(self, aa: bool, lk: bool, li: u32) -> State
        ensures { result ≡ with (linked_of self lk) Reg.Iar (target_at self aa (exts 26 (li % 2 ^ 24 * 4))) }
    {
        let to = self.target(aa, extend_26(li % 0x100_0000 * 4));
        self.link(lk).set(Reg::Iar, to)
    }

    fn register_target(self, op: BranchOp) -> u32
        ensures { result ≡ register_target self op }
    {
        match op {
            BranchOp::Bclr => self.lr / 4 * 4,
            BranchOp::Bcctr => self.ctr / 4 * 4,
        }
    }

    #[tactic(auto, unfolding(crate::specs::Branch::branch_of))]
    pub fn branch(self, i: Branch) -> State
        ensures { result ≡ branch_of self i }
    {
        match i {
            Branch::Always { aa, lk, li } => self.branch_always(aa, lk, li),
            Branch::Conditional { bo, bi, bd, aa, lk } => {
                let to = self.target(aa, extend_half(bd % 0x4000 * 4));
                self.branch_if(bo, bi, to, lk)
            }
            Branch::Register { op, bo, bi, lk, .. } => {
                let to = self.register_target(op);
                self.branch_if(bo, bi, to, lk)
            }
        }
    }
}

// Stack frames: lsku and stsku, access by access. What was done before one that is not served stays done.
ghost use Rattle.std.specs.Prelude.{◌≡◌, ◌/◌, ◌%◌, ◌^◌, [], length};
ghost use Rattle.insn.specs.Valid.{paired_with};
ghost use Rattle.insn.specs.declared.instr.StackOp.{StackOp};
ghost use Rattle.machine.specs.State.{with, with_gpr};
ghost use Rattle.machine.specs.Result.{next_of};
ghost use Rattle.machine.specs.declared.state.Reg.{Reg};
ghost use Rattle.word.specs.declared.width.Width.{Width};
ghost use Rattle.memory.specs.Access.{access_of};
ghost use Rattle.memory.specs.Store.{stored_of, stored_double_of};
ghost use Rattle.machine.specs.Stack.{frame_ea, doublewords, pair, link, pairs, parts_of, read_gpr, part_popped, parts_popped, parts_pushed, frame_of, stores_of, stack_of, served_at, parts_served, frame_served};

use crate::state::{Reg, State};
use insn::instr::StackOp;
use insn::profile::Profile;
use insn::valid::paired_with;
use memory::access::{Fault, access_at, double_access};
use memory::{load, store};
use word::sign::extend_half;
use word::sum::plus;
use word::width::Width;

// The doublewords between the two headers of a frame.
pub fn doublewords(op: StackOp, dd: u16) -> u16
    ensures { result ≡ doublewords op dd }
{
    match op {
        StackOp::Lsku => dd.saturating_sub(1),
        StackOp::Stsku => 8191_u16.saturating_sub(dd),
    }
}

// Whether a frame is stored, and not loaded.
pub fn stores(op: StackOp) -> bool
    ensures { result ≡ stores_of op }
{
    matches!(op, StackOp::Stsku)
}

// RA of a frame and its contents, EA, and the doublewords between the two headers. framed_of and frame_served take the four one
// by one, since theorems of crate promises speak of them so.
#[derive(Clone, Copy)]
pub struct Frame {
    pub ra: u8,
    pub sp: u32,
    pub ea: u32,
    pub n: u16,
}

// Why an access of a frame is not served, and its address.
#[derive(Clone, Copy)]
pub struct Missed {
    pub fault: Fault,
    pub address: u32,
}

fn served_at(access: Result<(), Fault>, address: u32) -> Result<(), Missed>
    ensures { result ≡ served_at access address }
{
    access.map_err(|fault| Missed { fault, address })
}

fn word_stored(mem: &mut [u8], at: u32, v: u32) -> Result<(), Missed>
    ensures { (result ≡ served_at (access_of (length mem.old) at 4) at) × (mem.new ≡ stored_of mem.old at Width.Word v) }
{
    served_at(store::store(mem, at, Width::Word, v), at)
}

fn double_stored(mem: &mut [u8], at: u32, v: u64) -> Result<(), Missed>
    ensures { (result ≡ served_at (access_of (length mem.old) at 8) at) × (mem.new ≡ stored_double_of mem.old at v) }
{
    served_at(store::store_double(mem, at, v), at)
}

fn word_served(len: usize, at: u32) -> Result<(), Missed>
    ensures { result ≡ served_at (access_of len at 4) at }
{
    served_at(access_at(len, at, Width::Word), at)
}

fn double_served(len: usize, at: u32) -> Result<(), Missed>
    ensures { result ≡ served_at (access_of len at 8) at }
{
    served_at(double_access(len, at), at)
}

#[tactic(auto, unfolding(crate::specs::Stack::parts_served))]
fn pairs_served(len: usize, top: u32, n: u16) -> Result<(), Missed>
    ensures { result ≡ parts_served len (pairs top n []) }
{
    if 0 < n {
        double_served(len, plus(top, 0xFFFF_FFF8))?;
    }
    if 1 < n {
        double_served(len, plus(top, 0xFFFF_FFF0))?;
    }
    Ok(())
}

// Whether a whole frame is served, in `len` bytes of lent memory, or its first access that is not.
#[tactic(auto, using(crate::proofs::Frames::pairs_first), unfolding(crate::specs::Stack::frame_served, crate::specs::Stack::parts_served))]
pub fn frame_served(len: usize, op: StackOp, f: Frame) -> Result<(), Missed>
    ensures { result ≡ frame_served len op f.sp f.ea f.n }
{
    if f.sp % 8 != 0 {
        return Err(Missed {
            fault: Fault::Unaligned,
            address: f.sp,
        });
    }
    match op {
        StackOp::Lsku => {
            pairs_served(len, f.ea, f.n)?;
            word_served(len, plus(f.ea, 4))
        }
        StackOp::Stsku => {
            word_served(len, plus(f.sp, 4))?;
            pairs_served(len, f.sp, f.n)?;
            word_served(len, f.ea)
        }
    }
}

impl State {
    #[tactic(auto, unfolding(crate::specs::Stack::frame_ea))]
    pub fn frame_ea(self, ra: u8, dd: u16) -> u32
        ensures { result ≡ frame_ea self ra dd }
    {
        let displacement = (dd as u32 * 8 % 0x1_0000) as u16;
        plus(self.reg(ra), extend_half(displacement))
    }

    pub fn frame(self, op: StackOp, ra: u8, dd: u16) -> Frame
        ensures { result ≡ frame_of self op ra dd }
    {
        Frame {
            ra,
            sp: self.reg(ra),
            ea: self.frame_ea(ra, dd),
            n: doublewords(op, dd),
        }
    }

    // The end of either: EDR, (RA) and the next instruction.
    fn framed(self, f: Frame, edr: u32) -> State
        ensures { result ≡ next_of (with_gpr (with self Reg.Edr edr) f.ra f.ea) }
    {
        self.set(Reg::Edr, edr).set_reg(f.ra, f.ea).next()
    }

    // One GPR of a pair that is read, but not RA itself.
    fn read_gpr(self, ra: u8, n: u8, v: u32) -> State
        ensures { result ≡ read_gpr self ra n v }
    {
        if n == ra { self } else { self.set_reg(n, v) }
    }

    fn read_pair(self, ra: u8, n: u8, v: u64) -> State
        ensures { result ≡ read_gpr (read_gpr self ra n (v / 2 ^ 32)) ra (paired_with n) (v % 2 ^ 32) }
    {
        let high = (v / 0x1_0000_0000) as u32;
        let low = (v % 0x1_0000_0000) as u32;
        self.read_gpr(ra, n, high).read_gpr(ra, paired_with(n), low)
    }

    // VDR n, read at an address, or the state after the interrupt.
    fn pop_pair(self, profile: Profile, mem: &[u8], ra: u8, n: u8, at: u32) -> Result<State, State>
        ensures { result ≡ part_popped profile ra (pair n at) mem.now self }
    {
        match load::load_double(mem, at) {
            Ok(v) => Ok(self.read_pair(ra, n, v)),
            Err(fault) => Err(self.faulted(profile, fault, at, false)),
        }
    }

    // LR, read at an address, or the state after the interrupt.
    fn pop_link(self, profile: Profile, mem: &[u8], ra: u8, at: u32) -> Result<State, State>
        ensures { result ≡ part_popped profile ra (link at) mem.now self }
    {
        match load::load(mem, at, Width::Word) {
            Ok(v) => Ok(self.set(Reg::Lr, v)),
            Err(fault) => Err(self.faulted(profile, fault, at, false)),
        }
    }

    // The pairs that the frame has, then LR.
    #[tactic(auto, unfolding(crate::specs::Stack::parts_popped))]
    fn pop(self, profile: Profile, mem: &[u8], f: Frame) -> Result<State, State>
        ensures { result ≡ parts_popped profile f.ra (parts_of StackOp.Lsku f.sp f.ea f.n) mem.now self }
    {
        let mut state = self;
        if 0 < f.n {
            state = state.pop_pair(profile, mem, f.ra, 30, plus(f.ea, 0xFFFF_FFF8))?;
        }
        if 1 < f.n {
            state = state.pop_pair(profile, mem, f.ra, 28, plus(f.ea, 0xFFFF_FFF0))?;
        }
        state.pop_link(profile, mem, f.ra, plus(f.ea, 4))
    }

    // LR, the pairs that the frame has, then the back pointer.
    #[tactic(auto, unfolding(crate::specs::Stack::parts_served, crate::specs::Stack::parts_pushed))]
    fn push(self, mem: &mut [u8], f: Frame) -> Result<(), Missed>
        ensures { (result ≡ parts_served (length mem.old) (parts_of StackOp.Stsku f.sp f.ea f.n)) × (mem.new ≡ parts_pushed f.ra (parts_of StackOp.Stsku f.sp f.ea f.n) self mem.old) }
    {
        word_stored(mem, plus(f.sp, 4), self.lr)?;
        if 0 < f.n {
            double_stored(mem, plus(f.sp, 0xFFFF_FFF8), self.vdr(30))?;
        }
        if 1 < f.n {
            double_stored(mem, plus(f.sp, 0xFFFF_FFF0), self.vdr(28))?;
        }
        word_stored(mem, f.ea, self.reg(f.ra))
    }

    #[tactic(auto, using(crate::proofs::Frames::popped_frame, crate::proofs::Frames::pop_memory, crate::proofs::Frames::pushed_frame, crate::proofs::Frames::pushed_memory), unfolding(crate::specs::Stack::stack_of))]
    pub fn stack(self, profile: Profile, mem: &mut [u8], op: StackOp, ra: u8, dd: u16) -> State
        ensures { (result ≡ (stack_of profile self mem.old op ra dd).st) × (mem.new ≡ (stack_of profile self mem.old op ra dd).mem) }
    {
        let f = self.frame(op, ra, dd);
        if f.sp % 8 != 0 {
            return self.faulted(profile, Fault::Unaligned, f.sp, stores(op));
        }
        match op {
            StackOp::Lsku => match self.pop(profile, &mem[..], f) {
                Ok(state) => state.framed(f, f.ea),
                Err(state) => state,
            },
            StackOp::Stsku => match self.push(mem, f) {
                Ok(()) => self.framed(f, f.sp),
                Err(missed) => self.faulted(profile, missed.fault, missed.address, true),
            },
        }
    }
}

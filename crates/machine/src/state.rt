// The state of a core, by value: each write of a register gives the next state.
ghost use Rattle.std.specs.Prelude.{◌≡◌, ◌<◌, set};
ghost use Rattle.machine.specs.State.{place_of, gpr_of, base_of, vdr_of, with_gpr, with_vdr, with};

use insn::valid::paired_with;
use word::shift::select;

#[derive(Clone, Copy, PartialEq, Eq)]
pub struct State {
    pub gpr: [u32; 16],
    pub cr: u32,
    pub ctr: u32,
    pub dacr: u32,
    pub dbcr: u32,
    pub dec: u32,
    pub edr: u32,
    pub isr: u32,
    pub ivpr: u32,
    pub lr: u32,
    pub msr: u32,
    pub pir: u32,
    pub pvr: u32,
    pub sprg0: u32,
    pub srr0: u32,
    pub srr1: u32,
    pub tcr: u32,
    pub tsr: u32,
    pub xer: u32,
    pub iar: u32,
    // a number and no enum: captures and C hold it so, and a run that marks puts 8 and 9 here
    pub halt: u32,
}

// The registers that are no GPR, with IAR and the halt code.
#[derive(Clone, Copy)]
pub enum Reg {
    Cr,
    Ctr,
    Dacr,
    Dbcr,
    Dec,
    Edr,
    Isr,
    Ivpr,
    Lr,
    Msr,
    Pir,
    Pvr,
    Sprg0,
    Srr0,
    Srr1,
    Tcr,
    Tsr,
    Xer,
    Iar,
    Halt,
}

// The contents of two GPRs.
#[derive(Clone, Copy)]
pub struct Pair {
    pub a: u32,
    pub b: u32,
}

// Where a register stands among the sixteen.
fn place(n: u8) -> usize
    ensures value { result ≡ place_of n }
    ensures small { result < 16 }
{
    if n == 13 { 11 } else { (n % 16) as usize }
}

// The sixteen with one of them replaced. Each is chosen and none is stored to: a store of one would hold up the next read of all.
// A loop, since `array::from_fn` was tried and needs a lemma on the calls of its closure where this has one invariant.
fn replaced(gpr: [u32; 16], at: usize, v: u32) -> [u32; 16]
    ensures { result ≡ set gpr at v }
{
    let mut all = [0; 16];
    for k in 0..16 {
        all[k] = select(at == k, v, gpr[k]);
    }
    all
}

// The sixteen are indexed apart from the rest of the state, so that a compiler can keep that in registers.
impl State {
    // The contents of a GPR.
    #[tactic(auto, unfolding(crate::specs::State::gpr_of))]
    pub fn reg(self, n: u8) -> u32
        ensures { result ≡ gpr_of self n }
    {
        let at = place(n);
        let gpr = self.gpr;
        gpr[at]
    }

    // The contents of two GPRs, out of one copy of the sixteen.
    #[tactic(auto, unfolding(crate::specs::State::gpr_of))]
    pub fn pair(self, m: u8, n: u8) -> Pair
        ensures { (result.a ≡ gpr_of self m) × (result.b ≡ gpr_of self n) }
    {
        let first = place(m);
        let second = place(n);
        let gpr = self.gpr;
        Pair {
            a: gpr[first],
            b: gpr[second],
        }
    }

    // (RA|0): the contents of RA, or 0 if RA is 0.
    #[tactic(auto, unfolding(crate::specs::State::base_of))]
    pub fn base(self, n: u8) -> u32
        ensures { result ≡ base_of self n }
    {
        if n == 0 { 0 } else { self.reg(n) }
    }

    // The contents of a virtual doubleword register.
    #[tactic(auto, unfolding(crate::specs::State::vdr_of))]
    pub fn vdr(self, n: u8) -> u64
        ensures { result ≡ vdr_of self n }
    {
        let words = self.pair(n, paired_with(n));
        words.a as u64 * 0x1_0000_0000 + words.b as u64
    }

    #[tactic(auto, unfolding(crate::specs::State::with_gpr))]
    pub fn set_reg(self, n: u8, v: u32) -> State
        ensures { result ≡ with_gpr self n v }
    {
        let gpr = replaced(self.gpr, place(n), v);
        State { gpr, ..self }
    }

    #[tactic(auto, unfolding(crate::specs::State::with_vdr))]
    pub fn set_vdr(self, n: u8, v: u64) -> State
        ensures { result ≡ with_vdr self n v }
    {
        // by / and %: `as` may not cut off, and of >> no rule is at hand (tried)
        let high = (v / 0x1_0000_0000) as u32;
        let low = (v % 0x1_0000_0000) as u32;
        self.set_reg(n, high).set_reg(paired_with(n), low)
    }

    #[tactic(auto, unfolding(crate::specs::State::with))]
    pub fn set(self, r: Reg, v: u32) -> State
        ensures { result ≡ with self r v }
    {
        match r {
            Reg::Cr => State { cr: v, ..self },
            Reg::Ctr => State { ctr: v, ..self },
            Reg::Dacr => State { dacr: v, ..self },
            Reg::Dbcr => State { dbcr: v, ..self },
            Reg::Dec => State { dec: v, ..self },
            Reg::Edr => State { edr: v, ..self },
            Reg::Isr => State { isr: v, ..self },
            Reg::Ivpr => State { ivpr: v, ..self },
            Reg::Lr => State { lr: v, ..self },
            Reg::Msr => State { msr: v, ..self },
            Reg::Pir => State { pir: v, ..self },
            Reg::Pvr => State { pvr: v, ..self },
            Reg::Sprg0 => State { sprg0: v, ..self },
            Reg::Srr0 => State { srr0: v, ..self },
            Reg::Srr1 => State { srr1: v, ..self },
            Reg::Tcr => State { tcr: v, ..self },
            Reg::Tsr => State { tsr: v, ..self },
            Reg::Xer => State { xer: v, ..self },
            Reg::Iar => State { iar: v, ..self },
            Reg::Halt => State { halt: v, ..self },
        }
    }
}

// What each register holds and which of its bits are defined.
ghost use Rattle.std.specs.Prelude.{◌≡◌};
ghost use Rattle.machine.specs.State.{contents_of};
ghost use Rattle.machine.specs.Register.{defined_of, clean_of, sound_of, check_of, check_start};

use crate::refusal::Refusal;
use crate::state::{Reg, State};
use insn::profile::{Profile, column};
use memory::access::sized;

// The bits that a register has; all others are reserved.
pub fn defined(profile: Profile, r: Reg) -> u32
    ensures { result ≡ defined_of profile r }
{
    match r {
        Reg::Cr => 0xF000_0000,
        Reg::Ctr => 0xFFFF_FFFF,
        Reg::Dacr => 0xFFFF_FFFF,
        Reg::Dbcr => column(profile, 0x318C_0000, 0x318C_00C7),
        Reg::Dec => 0xFFFF_FFFF,
        Reg::Edr => 0xFFFF_FFFF,
        Reg::Isr => 0x0000_F4CF,
        Reg::Ivpr => 0xFFFF_FE00,
        Reg::Lr => 0xFFFF_FFFF,
        Reg::Msr => 0x7FFF_9DFF,
        Reg::Pir => 0x0000_FFFF,
        Reg::Pvr => 0xFFFF_FFFF,
        Reg::Sprg0 => 0xFFFF_FFFF,
        Reg::Srr0 => 0xFFFF_FFFC,
        Reg::Srr1 => 0x7FFF_9DFF,
        Reg::Tcr => column(profile, 0xFFC0_0000, 0xFFE0_0000),
        Reg::Tsr => 0xFC00_0000,
        Reg::Xer => 0xE000_0000,
        Reg::Iar => 0xFFFF_FFFC,
        Reg::Halt => 0xFFFF_FFFF,
    }
}

impl State {
    pub fn get(self, r: Reg) -> u32
        ensures { result ≡ contents_of self r }
    {
        match r {
            Reg::Cr => self.cr,
            Reg::Ctr => self.ctr,
            Reg::Dacr => self.dacr,
            Reg::Dbcr => self.dbcr,
            Reg::Dec => self.dec,
            Reg::Edr => self.edr,
            Reg::Isr => self.isr,
            Reg::Ivpr => self.ivpr,
            Reg::Lr => self.lr,
            Reg::Msr => self.msr,
            Reg::Pir => self.pir,
            Reg::Pvr => self.pvr,
            Reg::Sprg0 => self.sprg0,
            Reg::Srr0 => self.srr0,
            Reg::Srr1 => self.srr1,
            Reg::Tcr => self.tcr,
            Reg::Tsr => self.tsr,
            Reg::Xer => self.xer,
            Reg::Iar => self.iar,
            Reg::Halt => self.halt,
        }
    }

    // Whether no reserved bit of a register is set.
    #[tactic(auto, unfolding(crate::specs::Register::clean_of))]
    fn clean(self, profile: Profile, r: Reg) -> bool
        ensures { result ≡ clean_of profile self r }
    {
        self.get(r) & !defined(profile, r) == 0
    }

    // Whether no reserved bit is set and the halt code is one of 0 to 5.
    #[tactic(auto, unfolding(crate::specs::Register::sound_of))]
    fn sound(self, profile: Profile) -> bool
        ensures { result ≡ sound_of profile self }
    {
        self.clean(profile, Reg::Cr)
            & self.clean(profile, Reg::Dbcr)
            & self.clean(profile, Reg::Isr)
            & self.clean(profile, Reg::Ivpr)
            & self.clean(profile, Reg::Msr)
            & self.clean(profile, Reg::Pir)
            & self.clean(profile, Reg::Srr0)
            & self.clean(profile, Reg::Srr1)
            & self.clean(profile, Reg::Tcr)
            & self.clean(profile, Reg::Tsr)
            & self.clean(profile, Reg::Xer)
            & (self.halt <= 5)
    }

    // Why a run does not accept this state: Iar, Reserved.
    #[tactic(auto, unfolding(crate::specs::Register::check_of))]
    pub fn check(self, profile: Profile) -> Result<(), Refusal>
        ensures { result ≡ check_of profile self }
    {
        if self.iar % 4 != 0 {
            return Err(Refusal::Iar);
        }
        if self.sound(profile) {
            Ok(())
        } else {
            Err(Refusal::Reserved)
        }
    }

    // The same with so many bytes of memory: Memory, Iar, Reserved.
    #[tactic(auto, unfolding(crate::specs::Register::check_start))]
    pub fn check_start(self, profile: Profile, size: usize) -> Result<(), Refusal>
        ensures { result ≡ check_start profile self size }
    {
        if sized(size) {
            self.check(profile)
        } else {
            Err(Refusal::Memory)
        }
    }
}

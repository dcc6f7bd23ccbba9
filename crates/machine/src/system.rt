// Traps, and the instructions that move special registers.
ghost use Rattle.std.specs.Prelude.{◌≡◌};
ghost use Rattle.machine.specs.System.{trap_of, spr_of, read_of, reset_of, dbcr_written, dec_written, isr_written, tsr_written, written, spr_written, spr_moved, enabled_of, moved_of, returned_of, system_of};

use crate::interrupt::{Halt, asked};
use crate::register::defined;
use crate::state::{Reg, State};
use crate::timer::bit_rises;
use insn::instr::{MoveOp, SprOp, System};
use insn::profile::{Profile, is_42x};
use word::bits::{Bit, bit_at, bits_at, digit_of, field_at};
use word::rotate::put_at;

// The register that a number names.
#[tactic(auto, unfolding(crate::specs::System::spr_of))]
fn spr(n: u16) -> Reg
    ensures { result ≡ spr_of n }
{
    match n {
        1 => Reg::Xer,
        8 => Reg::Lr,
        9 => Reg::Ctr,
        22 => Reg::Dec,
        26 => Reg::Srr0,
        27 => Reg::Srr1,
        61 => Reg::Edr,
        62 => Reg::Isr,
        63 => Reg::Ivpr,
        272 => Reg::Sprg0,
        286 => Reg::Pir,
        287 => Reg::Pvr,
        308 => Reg::Dbcr,
        316 => Reg::Dacr,
        336 => Reg::Tsr,
        _ => Reg::Tcr,
    }
}

impl State {
    #[tactic(auto, unfolding(crate::specs::System::trap_of))]
    pub fn trap(self, profile: Profile, word: u32, to: u8, tg: bool) -> State
        ensures { result ≡ trap_of profile self word to tg }
    {
        if to == 0 || is_42x(profile) && tg {
            return self.next();
        }
        if bit_at(self.dbcr, Bit(7)) {
            self.stop(Halt::Trap)
        } else {
            self.program(profile, word, true)
        }
    }

    // What mfspr reads.
    #[tactic(auto, unfolding(crate::specs::System::read_of, crate::specs::System::spr_of))]
    fn read_spr(self, n: u16) -> u32
        ensures { result ≡ read_of self n }
    {
        match spr(n) {
            Reg::Dbcr => put_at(self.dbcr, Bit(2), Bit(3), 0),
            r => self.get(r),
        }
    }

    #[tactic(auto, unfolding(crate::specs::System::reset_of))]
    fn reset(self, rst: u32) -> State
        ensures { result ≡ reset_of self rst }
    {
        if rst == 0 {
            self
        } else {
            self.stop(asked(rst, Halt::Debug))
        }
    }

    #[tactic(auto, unfolding(crate::specs::System::dbcr_written))]
    fn write_dbcr(self, profile: Profile, v: u32) -> State
        ensures { result ≡ dbcr_written profile self v }
    {
        let dbcr = put_at(v & defined(profile, Reg::Dbcr), Bit(2), Bit(3), 0);
        self.set(Reg::Dbcr, dbcr).reset(bits_at(v, Bit(2), Bit(3)))
    }

    #[tactic(auto, unfolding(crate::specs::System::dec_written))]
    fn write_dec(self, v: u32) -> State
        ensures { result ≡ dec_written self v }
    {
        let dis = digit_of(bit_rises(self.dec, v));
        let tsr = self.tsr | field_at(Bit(4), Bit(4), dis);
        self.set(Reg::Tsr, tsr).set(Reg::Dec, v)
    }

    #[tactic(auto, unfolding(crate::specs::System::isr_written))]
    fn write_isr(self, profile: Profile, v: u32) -> State
        ensures { result ≡ isr_written profile self v }
    {
        let ep = digit_of(bit_at(self.isr, Bit(21)));
        let isr = put_at(v & defined(profile, Reg::Isr), Bit(21), Bit(21), ep);
        self.set(Reg::Isr, isr)
    }

    #[tactic(auto, unfolding(crate::specs::System::tsr_written))]
    fn write_tsr(self, v: u32) -> State
        ensures { result ≡ tsr_written self v }
    {
        let tsr = self.tsr & !v;
        self.set(Reg::Tsr, tsr)
    }

    // A register written, its reserved bits dropped.
    #[tactic(auto, unfolding(crate::specs::System::written))]
    fn write(self, profile: Profile, r: Reg, v: u32) -> State
        ensures { result ≡ written profile self r v }
    {
        self.set(r, v & defined(profile, r))
    }

    #[tactic(auto, unfolding(crate::specs::System::spr_written, crate::specs::System::spr_of))]
    fn write_spr(self, profile: Profile, n: u16, v: u32) -> State
        ensures { result ≡ spr_written profile self n v }
    {
        match spr(n) {
            Reg::Dec => self.write_dec(v),
            Reg::Isr => self.write_isr(profile, v),
            Reg::Dbcr => self.write_dbcr(profile, v),
            Reg::Tsr => self.write_tsr(v),
            r => self.write(profile, r, v),
        }
    }

    fn move_spr(self, profile: Profile, op: SprOp, r: u8, n: u16) -> State
        ensures { result ≡ spr_moved profile self op r n }
    {
        match op {
            SprOp::Mfspr => self.finish(r, self.read_spr(n), false),
            SprOp::Mtspr => self.write_spr(profile, n, self.reg(r)).next(),
        }
    }

    // MSR[EE] alone.
    #[tactic(auto, unfolding(crate::specs::System::enabled_of))]
    fn enable(self, e: bool) -> State
        ensures { result ≡ enabled_of self e }
    {
        let msr = put_at(self.msr, Bit(16), Bit(16), digit_of(e));
        self.set(Reg::Msr, msr).next()
    }

    #[tactic(auto, unfolding(crate::specs::System::moved_of, crate::specs::System::written))]
    fn move_reg(self, profile: Profile, op: MoveOp, r: u8) -> State
        ensures { result ≡ moved_of profile self op r }
    {
        match op {
            MoveOp::Mfcr => self.finish(r, self.cr & defined(profile, Reg::Cr), false),
            MoveOp::Mtcr0 => self.write(profile, Reg::Cr, self.reg(r)).next(),
            MoveOp::Mfmsr => self.finish(r, self.msr, false),
            MoveOp::Mtmsr => self.write(profile, Reg::Msr, self.reg(r)).next(),
            MoveOp::Wrtee => self.enable(bit_at(self.reg(r), Bit(16))),
        }
    }

    #[tactic(auto, unfolding(crate::specs::System::returned_of))]
    fn return_from(self, profile: Profile) -> State
        ensures { result ≡ returned_of profile self }
    {
        let iar = self.srr0 / 4 * 4;
        self.write(profile, Reg::Msr, self.srr1).set(Reg::Iar, iar)
    }

    #[tactic(auto, unfolding(crate::specs::System::system_of))]
    pub fn system(self, profile: Profile, i: System) -> State
        ensures { result ≡ system_of profile self i }
    {
        match i {
            System::Spr { op, rt, spr } => self.move_spr(profile, op, rt, spr),
            System::Move { op, rt } => self.move_reg(profile, op, rt),
            System::Wrteei { e } => self.enable(e),
            System::Rfi => self.return_from(profile),
            System::Sync => self.next(),
        }
    }
}

// Interrupt entry, promotion and the halt.
ghost use Rattle.std.specs.Prelude.{◌≡◌, ◌<◌};
ghost use Rattle.machine.specs.declared.interrupt.Cause.{Cause};
ghost use Rattle.machine.specs.declared.interrupt.Vector.{Vector};
ghost use Rattle.machine.specs.Interrupt.{offset_of, vector_at, kept_of, entered_of, vector_for, access_noted, program_noted, promotion_of, promoted_of, halted_of, asked, cause_of, taken_for, interrupted_of};

use crate::state::{Reg, State};
use insn::profile::{Profile, column};
use memory::access::Fault;
use word::bits::{Bit, bit_at, digit_of};
use word::rotate::put_at;

// Where an interrupt goes.
#[derive(Clone, Copy)]
pub enum Vector {
    MachineCheck,
    DataStorage,
    InstructionStorage,
    External,
    Alignment,
    Program,
    Decrementer,
    FixedInterval,
    Watchdog,
}

// Why an instruction is interrupted.
#[derive(Clone, Copy)]
pub enum Cause {
    DataStorage { address: u32, store: bool },
    InstructionStorage,
    Alignment { address: u32, store: bool },
    Program { word: u32, trap: bool },
}

// Why a core halts, by its code.
#[derive(Clone, Copy)]
pub enum Halt {
    MachineCheck = 1,
    Debug,
    Trap,
    Watchdog,
    Reset,
}

// Tables of the manual, here and below in `kept` and `promotion`: no two rows count on from each other.
fn offset(profile: Profile, v: Vector) -> u32
    ensures value { result ≡ offset_of profile v }
    ensures small { result < 512 }
{
    match v {
        Vector::MachineCheck => column(profile, 0x000, 0x020),
        Vector::DataStorage => 0x060,
        Vector::InstructionStorage => 0x080,
        Vector::External => 0x0A0,
        Vector::Alignment => 0x0C0,
        Vector::Program => 0x0E0,
        Vector::Decrementer => 0x100,
        Vector::FixedInterval => 0x120,
        Vector::Watchdog => 0x140,
    }
}

fn vector_at(profile: Profile, ivpr: u32, v: Vector) -> u32
    ensures { result ≡ vector_at profile ivpr v }
{
    ivpr / 512 * 512 + offset(profile, v)
}

// The bits of MSR that an interrupt leaves.
fn kept(v: Vector) -> u32
    ensures { result ≡ kept_of v }
{
    match v {
        Vector::MachineCheck => 0x0070_0000,
        _ => 0x0070_1000,
    }
}

fn vector_for(c: Cause) -> Vector
    ensures { result ≡ vector_for c }
{
    match c {
        Cause::DataStorage { .. } => Vector::DataStorage,
        Cause::InstructionStorage => Vector::InstructionStorage,
        Cause::Alignment { .. } => Vector::Alignment,
        Cause::Program { .. } => Vector::Program,
    }
}

fn promotion(c: Cause) -> u32
    ensures { result ≡ promotion_of c }
{
    match c {
        Cause::DataStorage { .. } => 7,
        Cause::InstructionStorage => 5,
        Cause::Alignment { .. } => 6,
        Cause::Program { .. } => 4,
    }
}

// What two bits that are not 00 ask for: a halt, where they are 11, or a reset.
pub fn asked(bits: u32, halt: Halt) -> Halt
    ensures { result ≡ asked bits halt }
{
    if bits == 3 { halt } else { Halt::Reset }
}

// The cause that an access has which is not served.
pub fn cause_of(fault: Fault, address: u32, store: bool) -> Cause
    ensures { result ≡ cause_of fault address store }
{
    match fault {
        Fault::Unaligned => Cause::Alignment { address, store },
        Fault::Outside => Cause::DataStorage { address, store },
    }
}

impl State {
    // SRR0 and SRR1 take IAR and MSR, MSR is cleared but for what is kept, and IAR goes to the vector.
    #[tactic(auto, unfolding(crate::specs::Interrupt::entered_of))]
    pub fn enter(self, profile: Profile, v: Vector) -> State
        ensures { result ≡ entered_of profile self v }
    {
        let iar = self.iar;
        let msr = self.msr;
        let to = vector_at(profile, self.ivpr, v);
        self.set(Reg::Srr0, iar)
            .set(Reg::Srr1, msr)
            .set(Reg::Msr, msr & kept(v))
            .set(Reg::Iar, to)
    }

    // ISR[ST] and the data address in EDR; `note_program` sets another bit, which the manual names apart.
    #[tactic(auto, unfolding(crate::specs::Interrupt::access_noted))]
    fn note_access(self, address: u32, store: bool) -> State
        ensures { result ≡ access_noted self address store }
    {
        let isr = put_at(self.isr, Bit(25), Bit(25), digit_of(store));
        self.set(Reg::Isr, isr).set(Reg::Edr, address)
    }

    // ISR[PTR] and the word in EDR.
    #[tactic(auto, unfolding(crate::specs::Interrupt::program_noted))]
    fn note_program(self, word: u32, trap: bool) -> State
        ensures { result ≡ program_noted self word trap }
    {
        let isr = put_at(self.isr, Bit(24), Bit(24), digit_of(trap));
        self.set(Reg::Isr, isr).set(Reg::Edr, word)
    }

    // ISR[MFE] and ISR[MCS] of an interrupt that becomes a machine check.
    #[tactic(auto, unfolding(crate::specs::Interrupt::promoted_of))]
    fn promote(self, c: Cause) -> State
        ensures { result ≡ promoted_of self c }
    {
        let single = put_at(self.isr, Bit(28), Bit(28), 0);
        let isr = put_at(single, Bit(29), Bit(31), promotion(c));
        self.set(Reg::Isr, isr)
    }

    #[tactic(auto, unfolding(crate::specs::Interrupt::halted_of))]
    pub fn stop(self, h: Halt) -> State
        ensures { result ≡ halted_of self h }
    {
        self.set(Reg::Halt, h as u32)
    }

    // A synchronous interrupt whose ISR and EDR are noted: taken, promoted to a machine check, or halting.
    #[tactic(auto, unfolding(crate::specs::Interrupt::taken_for))]
    fn take(self, profile: Profile, c: Cause) -> State
        ensures { result ≡ taken_for profile self c }
    {
        if bit_at(self.msr, Bit(15)) {
            return self.enter(profile, vector_for(c));
        }
        if bit_at(self.msr, Bit(19)) {
            return self.promote(c).enter(profile, Vector::MachineCheck);
        }
        self.enter(profile, vector_for(c)).stop(Halt::MachineCheck)
    }

    #[tactic(auto, unfolding(crate::specs::Interrupt::interrupted_of, crate::specs::Interrupt::noted_of))]
    pub fn instruction_storage(self, profile: Profile) -> State
        ensures { result ≡ interrupted_of profile self Cause.InstructionStorage }
    {
        self.take(profile, Cause::InstructionStorage)
    }

    // The interrupt of an access that is not served.
    #[tactic(auto, using(crate::proofs::Interrupts::fault_noted), unfolding(crate::specs::Interrupt::interrupted_of))]
    pub fn faulted(self, profile: Profile, fault: Fault, address: u32, store: bool) -> State
        ensures { result ≡ interrupted_of profile self (cause_of fault address store) }
    {
        self.note_access(address, store)
            .take(profile, cause_of(fault, address, store))
    }

    #[tactic(auto, unfolding(crate::specs::Interrupt::interrupted_of, crate::specs::Interrupt::noted_of))]
    pub fn program(self, profile: Profile, word: u32, trap: bool) -> State
        ensures { result ≡ interrupted_of profile self (Cause.Program word trap) }
    {
        self.note_program(word, trap)
            .take(profile, Cause::Program { word, trap })
    }
}

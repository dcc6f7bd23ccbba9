// One step of a core: the six lines in their order.
ghost use Rattle.std.specs.Prelude.{◌≡◌};
ghost use Rattle.machine.specs.Step.{execute_of, decoded_of, running_of, awake_of, highest_of, interruptible_of, counted_of, step_of};
ghost use Rattle.insn.specs.Read.{decode_on};

use crate::interrupt::Vector;
use crate::state::State;
use crate::timer::quiet;
use insn::instr::Instr;
use insn::profile::Profile;
use insn::read::read;
use memory::load::fetch;
use word::bits::{Bit, bit_at};

// State, profile and memory are handed on one by one: at C the profile is a constant, which a struct of all three would hide.
impl State {
    // An instruction, and the word that it was read from.
    #[tactic(auto, unfolding(crate::specs::Step::execute_of))]
    fn execute(self, profile: Profile, mem: &mut [u8], word: u32, i: Instr) -> State
        ensures { (result ≡ (execute_of profile self mem.old word i).st) × (mem.new ≡ (execute_of profile self mem.old word i).mem) }
    {
        match i {
            Instr::Arithmetic(i) => self.arithmetic(i),
            Instr::Logical(i) => self.logical(i),
            Instr::Compare(i) => self.compare(i),
            Instr::Rotate(i) => self.rotate(i),
            Instr::LoadStore(i) => self.load_store(profile, mem, i),
            Instr::Stack { op, ra, dd, .. } => self.stack(profile, mem, op, ra, dd),
            Instr::Branch(i) => self.branch(i),
            Instr::Trap { to, tg, .. } => self.trap(profile, word, to, tg),
            Instr::System(i) => self.system(profile, i),
            Instr::Cache { op, ra, rb, .. } => self.cache(profile, mem, op, ra, rb),
        }
    }

    fn decoded(self, profile: Profile, mem: &mut [u8], word: u32) -> State
        ensures { (result ≡ (decoded_of profile self mem.old word (decode_on profile word)).st) × (mem.new ≡ (decoded_of profile self mem.old word (decode_on profile word)).mem) }
    {
        match read(profile, word) {
            Some(i) => self.execute(profile, mem, word, i),
            None => self.program(profile, word, false),
        }
    }

    // Line 6: fetch at IAR, decode, execute.
    #[tactic(auto, unfolding(crate::specs::Step::running_of))]
    fn running(self, profile: Profile, mem: &mut [u8]) -> State
        ensures { (result ≡ (running_of profile self mem.old).st) × (mem.new ≡ (running_of profile self mem.old).mem) }
    {
        match fetch(&mem[..], self.iar) {
            Ok(word) => self.decoded(profile, mem, word),
            Err(_) => self.instruction_storage(profile),
        }
    }

    // Line 5: the wait state.
    #[tactic(auto, unfolding(crate::specs::Step::awake_of))]
    fn awake(self, profile: Profile, mem: &mut [u8]) -> State
        ensures { (result ≡ (awake_of profile self mem.old).st) × (mem.new ≡ (awake_of profile self mem.old).mem) }
    {
        if bit_at(self.msr, Bit(13)) {
            return self;
        }
        self.running(profile, mem)
    }

    // The highest asynchronous interrupt that is enabled: in a quiet step there is none.
    #[tactic(auto, unfolding(crate::specs::Step::highest_of))]
    pub fn highest(self, event: u8) -> Option<Vector>
        ensures { result ≡ highest_of self event }
    {
        if quiet(self.tcr, event) {
            return None;
        }
        if !bit_at(self.msr, Bit(16)) {
            return None;
        }
        if bit_at(self.tcr, Bit(4)) & bit_at(self.tsr, Bit(1)) {
            return Some(Vector::Watchdog);
        }
        if bit_at(event as u32, Bit(31)) {
            return Some(Vector::External);
        }
        if bit_at(self.tcr, Bit(8)) & bit_at(self.tsr, Bit(5)) {
            return Some(Vector::FixedInterval);
        }
        if bit_at(self.tcr, Bit(5)) & bit_at(self.tsr, Bit(4)) {
            return Some(Vector::Decrementer);
        }
        None
    }

    // Line 4: an asynchronous interrupt is taken.
    fn interruptible(self, profile: Profile, mem: &mut [u8], event: u8) -> State
        ensures { (result ≡ (interruptible_of profile self mem.old (highest_of self event)).st) × (mem.new ≡ (interruptible_of profile self mem.old (highest_of self event)).mem) }
    {
        match self.highest(event) {
            Some(v) => self.enter(profile, v),
            None => self.awake(profile, mem),
        }
    }

    // Line 2, the events, and line 3, the watchdog's action.
    #[tactic(auto, unfolding(crate::specs::Step::counted_of))]
    fn counted(self, profile: Profile, mem: &mut [u8], event: u8) -> State
        ensures { (result ≡ (counted_of profile self mem.old event).st) × (mem.new ≡ (counted_of profile self mem.old event).mem) }
    {
        let acts = self.acts(event);
        let ticked = self.tick(event);
        if acts {
            return ticked.act();
        }
        ticked.interruptible(profile, mem, event)
    }

    // One step. Line 1: halted, nothing happens.
    #[tactic(auto, unfolding(crate::specs::Step::step_of))]
    pub fn step(self, profile: Profile, mem: &mut [u8], event: u8) -> State
        ensures { (result ≡ (step_of profile self mem.old event).st) × (mem.new ≡ (step_of profile self mem.old event).mem) }
    {
        if self.halt != 0 {
            return self;
        }
        self.counted(profile, mem, event)
    }
}

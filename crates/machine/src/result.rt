// What instructions write besides their target: NIA, CR0 and XER.
ghost use Rattle.std.specs.Prelude.{◌≡◌};
ghost use Rattle.machine.specs.Result.{following, next_of, so_of, carry_of, cr0_of, recorded_of, carried_of, overflowed_of, result_of, recorded_double_of, double_result_of};

use crate::state::{Reg, State};
use word::bits::{Bit, bit_at, digit_of, field_at};
use word::compare::record_of;
use word::double::record_double;
use word::rotate::put_at;
use word::sum::plus;

impl State {
    // The address of the instruction in line.
    pub fn in_line(self) -> u32
        ensures { result ≡ following self }
    {
        plus(self.iar, 4)
    }

    // On to the next instruction.
    #[tactic(auto, unfolding(crate::specs::Result::next_of))]
    pub fn next(self) -> State
        ensures { result ≡ next_of self }
    {
        self.set(Reg::Iar, self.in_line())
    }

    // XER[SO].
    pub fn so(self) -> bool
        ensures { result ≡ so_of self }
    {
        bit_at(self.xer, Bit(0))
    }

    // XER[CA].
    pub fn carry(self) -> bool
        ensures { result ≡ carry_of self }
    {
        bit_at(self.xer, Bit(2))
    }

    #[tactic(auto, unfolding(crate::specs::Result::cr0_of))]
    pub fn set_cr0(self, v: u32) -> State
        ensures { result ≡ cr0_of self v }
    {
        self.set(Reg::Cr, field_at(Bit(0), Bit(3), v))
    }

    // CR0 after a result, if the instruction records it.
    #[tactic(auto, unfolding(crate::specs::Result::recorded_of))]
    fn record_result(self, v: u32, rc: bool) -> State
        ensures { result ≡ recorded_of self v rc }
    {
        if rc {
            self.set_cr0(record_of(v, self.so()))
        } else {
            self
        }
    }

    // XER[CA], if the instruction writes it.
    #[tactic(auto, unfolding(crate::specs::Result::carried_of))]
    pub fn set_carry(self, writes: bool, ca: bool) -> State
        ensures { result ≡ carried_of self writes ca }
    {
        if writes {
            let xer = put_at(self.xer, Bit(2), Bit(2), digit_of(ca));
            self.set(Reg::Xer, xer)
        } else {
            self
        }
    }

    // XER[OV] both ways, and XER[SO] set with it, with OE.
    #[tactic(auto, unfolding(crate::specs::Result::overflowed_of))]
    pub fn set_overflow(self, oe: bool, ov: bool) -> State
        ensures { result ≡ overflowed_of self oe ov }
    {
        if oe {
            let own = put_at(self.xer, Bit(1), Bit(1), digit_of(ov));
            let xer = put_at(own, Bit(0), Bit(0), digit_of(self.so() | ov));
            self.set(Reg::Xer, xer)
        } else {
            self
        }
    }

    // The result in its register, CR0 with Rc, and on to the next instruction.
    #[tactic(auto, unfolding(crate::specs::Result::result_of))]
    pub fn finish(self, r: u8, v: u32, rc: bool) -> State
        ensures { result ≡ result_of self r v rc }
    {
        self.record_result(v, rc).set_reg(r, v).next()
    }

    // CR0 after a result of 64 bits. As of loads, a trait of u32 and u64 would be longer than the two pairs of functions.
    #[tactic(auto, unfolding(crate::specs::Result::recorded_double_of))]
    fn record_double_result(self, v: u64, rc: bool) -> State
        ensures { result ≡ recorded_double_of self v rc }
    {
        if rc {
            self.set_cr0(record_double(v, self.so()))
        } else {
            self
        }
    }

    // A result of 64 bits in its pair, with CR0 of the 64 bits.
    #[tactic(auto, unfolding(crate::specs::Result::double_result_of))]
    pub fn finish_double(self, r: u8, v: u64, rc: bool) -> State
        ensures { result ≡ double_result_of self r v rc }
    {
        self.record_double_result(v, rc).set_vdr(r, v).next()
    }
}

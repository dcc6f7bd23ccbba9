// The compares.
ghost use Rattle.std.specs.Prelude.{◌≡◌};
ghost use Rattle.machine.specs.Compare.{compared, extended, compared_of, compare_of};

use crate::state::State;
use insn::instr::{Compare, Sign};
use word::compare::{compare_signed, compare_unsigned};
use word::sign::extend_half;

fn cr0_after(sign: Sign, a: u32, b: u32, so: bool) -> u32
    ensures { result ≡ compared sign a b so }
{
    match sign {
        Sign::Signed => compare_signed(a, b, so),
        Sign::Unsigned => compare_unsigned(a, b, so),
    }
}

// The immediate, extended with its sign or with zeros.
fn extend(sign: Sign, imm: u16) -> u32
    ensures { result ≡ extended sign imm }
{
    match sign {
        Sign::Signed => extend_half(imm),
        Sign::Unsigned => imm as u32,
    }
}

impl State {
    #[tactic(auto, unfolding(crate::specs::Compare::compared_of))]
    fn compare_with(self, sign: Sign, ra: u8, b: u32) -> State
        ensures { result ≡ compared_of self sign ra b }
    {
        let v = cr0_after(sign, self.reg(ra), b, self.so());
        self.set_cr0(v).next()
    }

    #[tactic(auto, unfolding(crate::specs::Compare::compare_of))]
    pub fn compare(self, i: Compare) -> State
        ensures { result ≡ compare_of self i }
    {
        match i {
            Compare::Immediate { sign, ra, imm } => self.compare_with(sign, ra, extend(sign, imm)),
            Compare::Register { sign, ra, rb } => self.compare_with(sign, ra, self.reg(rb)),
        }
    }
}

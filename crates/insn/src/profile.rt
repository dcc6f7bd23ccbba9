// The two cores, and which instructions each has.
ghost use Rattle.std.specs.Prelude.{◌≡◌};
ghost use Rattle.insn.specs.Profile.{is42x, column, arithmetic_on42, rotate_on42, on42, has};

use crate::instr::*;
use crate::valid::trap_form;

#[derive(Clone, Copy)]
pub enum Profile {
    Ppe42,
    Ppe42x,
}

pub fn is_42x(profile: Profile) -> bool
    ensures { result ≡ is42x profile }
{
    matches!(profile, Profile::Ppe42x)
}

// A number that a table has in two columns.
pub fn column(profile: Profile, a: u32, b: u32) -> u32
    ensures { result ≡ column profile a b }
{
    match profile {
        Profile::Ppe42 => a,
        Profile::Ppe42x => b,
    }
}

// Apart from on_42, as the definitions are.
fn arithmetic_on_42(i: Arithmetic) -> bool
    ensures { result ≡ arithmetic_on42 i }
{
    !matches!(
        i,
        Arithmetic::MultiplyImm { .. } | Arithmetic::MultiplyLow { .. }
    )
}

fn rotate_on_42(i: Rotate) -> bool
    ensures { result ≡ rotate_on42 i }
{
    !matches!(i, Rotate::Double { .. })
}

fn on_42(i: Instr) -> bool
    ensures { result ≡ on42 i }
{
    match i {
        Instr::Arithmetic(a) => arithmetic_on_42(a),
        Instr::Rotate(r) => rotate_on_42(r),
        Instr::Stack { .. } => false,
        Instr::Trap { to, ra, rb, .. } => trap_form(to, ra, rb),
        _ => true,
    }
}

pub fn has(profile: Profile, i: Instr) -> bool
    ensures { result ≡ has profile i }
{
    is_42x(profile) || on_42(i)
}

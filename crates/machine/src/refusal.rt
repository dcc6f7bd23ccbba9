// Why bad input is refused, and the number that stands for it.
ghost use Rattle.std.specs.Prelude.{◌≡◌};
ghost use Rattle.machine.specs.Refusal.{number_of};

#[derive(Clone, Copy, PartialEq, Eq, Debug)]
pub enum Refusal {
    Memory,
    Iar,
    Reserved,
    Budget,
    Events,
    Capture,
    Output,
    Record,
    Outside,
    Twice,
    End,
    Count,
}

impl From<Refusal> for u32 {
    ghost from_gives = { λ r number. number ≡ number_of r };

    fn from(r: Refusal) -> u32 {
        match r {
            Refusal::Memory => 1,
            Refusal::Iar => 2,
            Refusal::Reserved => 3,
            Refusal::Budget => 4,
            Refusal::Events => 5,
            Refusal::Capture => 7,
            Refusal::Output => 8,
            Refusal::Record => 13,
            Refusal::Outside => 14,
            Refusal::Twice => 15,
            Refusal::End => 16,
            Refusal::Count => 17,
        }
    }
}

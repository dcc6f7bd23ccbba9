// What a byte of a row stands for.
ghost use Rattle.std.specs.Prelude.{◌≡◌};
ghost use Rattle.syntax.specs.Inside.{range_of, range_in, item_at, item_in};

// The numbers: of 16 bits with a sign and without, of five, six, two, ten and one, a frame in bytes, the targets of b and bc.
#[derive(Clone, Copy)]
pub enum Number {
    Signed,
    Unsigned,
    Five,
    Six,
    Two,
    Ten,
    One,
    Frame,
    Branch,
    Conditional,
}

impl From<u8> for Number {
    ghost from_gives = { λ c number. range_in number ≡ range_of c };

    #[tactic(auto, unfolding(crate::specs::Inside::range_of))]
    fn from(c: u8) -> Number {
        match c {
            b'S' => Number::Signed,
            b'U' => Number::Unsigned,
            b'N' => Number::Five,
            b'L' => Number::Six,
            b'C' => Number::Two,
            b'P' => Number::Ten,
            b'E' => Number::One,
            b'F' => Number::Frame,
            b'J' => Number::Branch,
            _ => Number::Conditional,
        }
    }
}

// That byte, a register, a register or a lone 0, a number.
#[derive(Clone, Copy)]
pub enum Slot {
    Byte(u8),
    Register,
    Base,
    Number(Number),
}

impl From<u8> for Slot {
    ghost from_gives = { λ c slot. item_in slot ≡ item_at c };

    #[tactic(auto, unfolding(crate::specs::Inside::item_at, crate::specs::Inside::operand_at))]
    fn from(c: u8) -> Slot {
        match c {
            b'R' => Slot::Register,
            b'Z' => Slot::Base,
            b'A'..=b'Z' => Slot::Number(Number::from(c)),
            _ => Slot::Byte(c),
        }
    }
}

// What a load or store moves.
ghost use Rattle.std.specs.Prelude.{◌≡◌};
ghost use Rattle.word.specs.Width.{bytes};

#[derive(Clone, Copy)]
pub enum Width {
    Byte,
    Half,
    Word,
}

// How many bytes that is.
pub fn size(width: Width) -> usize
    ensures { result ≡ bytes width }
{
    match width {
        Width::Byte => 1,
        Width::Half => 2,
        Width::Word => 4,
    }
}

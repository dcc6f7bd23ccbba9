// A word and its form, as they are kept.
ghost use Rattle.std.specs.Prelude.{◌≡◌};
ghost use Rattle.reading.specs.Reading.{read_of, reading_of};

use crate::form::Form;
use insn::profile::Profile;
use insn::read::read;
use memory::access::Fault;
use memory::load::fetch;

#[derive(Clone, Copy)]
pub struct Reading {
    pub word: u32,
    pub form: Form,
}

fn read_of(profile: Profile, word: u32) -> Reading
    ensures { result ≡ read_of profile word }
{
    let form = read(profile, word).map_or(Form::Illegal, Form::from);
    Reading { word, form }
}

// What is fetched and read at an address.
#[tactic(auto, unfolding(crate::specs::Reading::reading_of))]
pub fn reading_at(profile: Profile, mem: &[u8], at: u32) -> Reading
    ensures { result ≡ reading_of profile mem.now at }
{
    match fetch(mem, at) {
        Ok(word) => read_of(profile, word),
        Err(Fault::Unaligned) => Reading {
            word: 0,
            form: Form::Unaligned,
        },
        Err(Fault::Outside) => Reading {
            word: 0,
            form: Form::Outside,
        },
    }
}

// The bytes that records have named so far: a bit for each byte of the largest memory.
ghost use Rattle.std.specs.Prelude.{◌≡◌, ◌+◌, ◌≤◌, ◌<◌};
ghost use Rattle.srecord.specs.Named.{is_named, naming, any_named, naming_all};

use word::bits::{Bit, bit_at, field_at};

#[derive(Drop)]
pub struct Named {
    pub words: [u32; 32768],
}

impl Named {
    // Names a byte, and says whether it was named.
    #[tactic(auto, unfolding(crate::specs::Named::is_named, crate::specs::Named::naming))]
    fn name_one(&mut self, at: usize) -> bool
        requires { at < 1048576 }
        ensures { (result ≡ is_named self.old.words at) × (self.new.words ≡ naming self.old.words at) }
    {
        let place = at / 32;
        let old = self.words[place];
        let bit = Bit((at % 32) as u8);
        self.words[place] = old | field_at(bit, bit, 1);
        bit_at(old, bit)
    }

    // Names n bytes, and says whether one was named.
    #[tactic(auto, using(crate::proofs::Naming::any_end, crate::proofs::Naming::all_end))]
    pub fn name(&mut self, at: usize, n: usize) -> bool
        requires { at + n ≤ 1048576 }
        ensures { (result ≡ any_named n self.old.words at) × (self.new.words ≡ naming_all n self.old.words at) }
    {
        let mut any = false;
        for p in at..at + n {
            any |= self.name_one(p);
        }
        any
    }
}

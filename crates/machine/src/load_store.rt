// Loads and stores. An access that is not served changes nothing but what its interrupt sets.
ghost use Rattle.std.specs.Prelude.{◌≡◌};
ghost use Rattle.machine.specs.LoadStore.{offset_ea, indexed_ea, updated_of, loaded_state, stored_state, loaded_double_state, load_double_at, store_double_at, load_store_of};

use crate::state::State;
use insn::instr::LoadStore;
use insn::profile::Profile;
use memory::access::Fault;
use memory::{load, store};
use word::sign::extend_half;
use word::sum::plus;

impl State {
    #[tactic(auto, unfolding(crate::specs::LoadStore::offset_ea))]
    pub fn offset_ea(self, ra: u8, d: u16) -> u32
        ensures { result ≡ offset_ea self ra d }
    {
        plus(self.base(ra), extend_half(d))
    }

    #[tactic(auto, unfolding(crate::specs::LoadStore::indexed_ea))]
    pub fn indexed_ea(self, ra: u8, rb: u8) -> u32
        ensures { result ≡ indexed_ea self ra rb }
    {
        plus(self.base(ra), self.reg(rb))
    }

    // EA in RA, in update forms.
    #[tactic(auto, unfolding(crate::specs::LoadStore::updated_of))]
    fn update(self, update: bool, ra: u8, ea: u32) -> State
        ensures { result ≡ updated_of self update ra ea }
    {
        if update { self.set_reg(ra, ea) } else { self }
    }

    // The value in RT, or the interrupt.
    pub fn loaded(
        self,
        profile: Profile,
        got: Result<u32, Fault>,
        rt: u8,
        update: bool,
        ra: u8,
        ea: u32,
    ) -> State
        ensures { result ≡ loaded_state profile self got rt update ra ea }
    {
        match got {
            Ok(v) => self.update(update, ra, ea).set_reg(rt, v).next(),
            Err(fault) => self.faulted(profile, fault, ea, false),
        }
    }

    pub fn stored(
        self,
        profile: Profile,
        done: Result<(), Fault>,
        update: bool,
        ra: u8,
        ea: u32,
    ) -> State
        ensures { result ≡ stored_state profile self done update ra ea }
    {
        match done {
            Ok(()) => self.update(update, ra, ea).next(),
            Err(fault) => self.faulted(profile, fault, ea, true),
        }
    }

    // The doubleword in DT, or the interrupt. A trait of u32 and u64 with its law would be longer than the two functions.
    pub fn loaded_double(
        self,
        profile: Profile,
        got: Result<u64, Fault>,
        dt: u8,
        update: bool,
        ra: u8,
        ea: u32,
    ) -> State
        ensures { result ≡ loaded_double_state profile self got dt update ra ea }
    {
        match got {
            Ok(v) => self.update(update, ra, ea).set_vdr(dt, v).next(),
            Err(fault) => self.faulted(profile, fault, ea, false),
        }
    }

    #[tactic(auto, unfolding(crate::specs::LoadStore::load_double_at))]
    pub fn load_double(
        self,
        profile: Profile,
        mem: &[u8],
        update: bool,
        dt: u8,
        ra: u8,
        d: u16,
    ) -> State
        ensures { result ≡ (load_double_at profile self mem.now dt (offset_ea self ra d) update ra).st }
    {
        let ea = self.offset_ea(ra, d);
        self.loaded_double(profile, load::load_double(mem, ea), dt, update, ra, ea)
    }

    #[tactic(auto, unfolding(crate::specs::LoadStore::store_double_at))]
    pub fn store_double(
        self,
        profile: Profile,
        mem: &mut [u8],
        update: bool,
        ds: u8,
        ra: u8,
        d: u16,
    ) -> State
        ensures { (result ≡ (store_double_at profile self mem.old ds (offset_ea self ra d) update ra).st) × (mem.new ≡ (store_double_at profile self mem.old ds (offset_ea self ra d) update ra).mem) }
    {
        let ea = self.offset_ea(ra, d);
        let done = store::store_double(mem, ea, self.vdr(ds));
        self.stored(profile, done, update, ra, ea)
    }

    #[tactic(auto, unfolding(crate::specs::LoadStore::load_store_of, crate::specs::LoadStore::load_at, crate::specs::LoadStore::store_at, crate::specs::LoadStore::load_double_at))]
    pub fn load_store(self, profile: Profile, mem: &mut [u8], i: LoadStore) -> State
        ensures { (result ≡ (load_store_of profile self mem.old i).st) × (mem.new ≡ (load_store_of profile self mem.old i).mem) }
    {
        match i {
            LoadStore::Load {
                width,
                update,
                rt,
                ra,
                d,
            } => {
                let ea = self.offset_ea(ra, d);
                self.loaded(profile, load::load(&mem[..], ea, width), rt, update, ra, ea)
            }
            LoadStore::LoadIndexed { width, rt, ra, rb } => {
                let ea = self.indexed_ea(ra, rb);
                self.loaded(profile, load::load(&mem[..], ea, width), rt, false, ra, ea)
            }
            LoadStore::Store {
                width,
                update,
                rs,
                ra,
                d,
            } => {
                let ea = self.offset_ea(ra, d);
                let done = store::store(mem, ea, width, self.reg(rs));
                self.stored(profile, done, update, ra, ea)
            }
            LoadStore::StoreIndexed { width, rs, ra, rb } => {
                let ea = self.indexed_ea(ra, rb);
                let done = store::store(mem, ea, width, self.reg(rs));
                self.stored(profile, done, false, ra, ea)
            }
            LoadStore::LoadDouble { update, dt, ra, d } => {
                self.load_double(profile, &mem[..], update, dt, ra, d)
            }
            LoadStore::StoreDouble { update, ds, ra, d } => {
                self.store_double(profile, mem, update, ds, ra, d)
            }
        }
    }
}

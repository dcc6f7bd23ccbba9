// The cache instructions: only dcbz does anything.
ghost use Rattle.std.specs.Prelude.{◌≡◌};
ghost use Rattle.machine.specs.Cache.{clear_at, cache_of};

use crate::state::State;
use insn::instr::CacheOp;
use insn::profile::Profile;
use memory::store;

impl State {
    #[tactic(auto, unfolding(crate::specs::Cache::clear_at))]
    fn clear_at(self, profile: Profile, mem: &mut [u8], ea: u32) -> State
        ensures { (result ≡ (clear_at profile self mem.old ea).st) × (mem.new ≡ (clear_at profile self mem.old ea).mem) }
    {
        match store::clear(mem, ea) {
            Ok(()) => self.next(),
            Err(fault) => self.faulted(profile, fault, ea, true),
        }
    }

    #[tactic(auto, unfolding(crate::specs::Cache::cache_of))]
    pub fn cache(self, profile: Profile, mem: &mut [u8], op: CacheOp, ra: u8, rb: u8) -> State
        ensures { (result ≡ (cache_of profile self mem.old op ra rb).st) × (mem.new ≡ (cache_of profile self mem.old op ra rb).mem) }
    {
        match op {
            CacheOp::Dcbf | CacheOp::Dcbi | CacheOp::Dcbt => self.next(),
            CacheOp::Dcbz => {
                let ea = self.indexed_ea(ra, rb);
                self.clear_at(profile, mem, ea)
            }
        }
    }
}

// What stores to memory, the entries of those words dropped first.
ghost use Rattle.std.specs.Prelude.{◌≡◌};
ghost use Rattle.insn.specs.declared.instr.LoadStore.{LoadStore};
ghost use Rattle.machine.specs.Cache.{cache_of};
ghost use Rattle.machine.specs.LoadStore.{load_store_of};
ghost use Rattle.machine.specs.Stack.{stack_of};
ghost use Rattle.marked.specs.Mark.{marked_of};
ghost use Rattle.perform.specs.Performed.{Framed, Still};

use entries::tags::{Tags, drop_block, drop_bytes};
use insn::instr::{CacheOp, LoadStore, StackOp};
use insn::profile::Profile;
use machine::state::State;
use marked::step::{cache_marked, load_store_marked, stack_marked};
use word::sum::plus;
use word::width::{Width, size};

pub fn store(
    profile: Profile,
    state: State,
    mem: &mut [u8],
    tags: &mut Tags,
    width: Width,
    update: bool,
    rs: u8,
    ra: u8,
    d: u16,
) -> State
    ensures { (result ≡ marked_of (load_store_of profile state mem.old (LoadStore.Store width update rs ra d))) × ((mem.new ≡ (load_store_of profile state mem.old (LoadStore.Store width update rs ra d)).mem) × Still tags.old tags.new mem.old mem.new) }
{
    drop_bytes(tags, state.offset_ea(ra, d), size(width));
    let i = LoadStore::Store {
        width,
        update,
        rs,
        ra,
        d,
    };
    load_store_marked(profile, state, mem, i)
}

pub fn store_indexed(
    profile: Profile,
    state: State,
    mem: &mut [u8],
    tags: &mut Tags,
    width: Width,
    rs: u8,
    ra: u8,
    rb: u8,
) -> State
    ensures { (result ≡ marked_of (load_store_of profile state mem.old (LoadStore.StoreIndexed width rs ra rb))) × ((mem.new ≡ (load_store_of profile state mem.old (LoadStore.StoreIndexed width rs ra rb)).mem) × Still tags.old tags.new mem.old mem.new) }
{
    drop_bytes(tags, state.indexed_ea(ra, rb), size(width));
    let i = LoadStore::StoreIndexed { width, rs, ra, rb };
    load_store_marked(profile, state, mem, i)
}

pub fn store_double(
    profile: Profile,
    state: State,
    mem: &mut [u8],
    tags: &mut Tags,
    update: bool,
    ds: u8,
    ra: u8,
    d: u16,
) -> State
    ensures { (result ≡ marked_of (load_store_of profile state mem.old (LoadStore.StoreDouble update ds ra d))) × ((mem.new ≡ (load_store_of profile state mem.old (LoadStore.StoreDouble update ds ra d)).mem) × Still tags.old tags.new mem.old mem.new) }
{
    drop_bytes(tags, state.offset_ea(ra, d), 8);
    let i = LoadStore::StoreDouble { update, ds, ra, d };
    load_store_marked(profile, state, mem, i)
}

// Of the cache instructions only dcbz clears.
#[tactic(auto, using(crate::proofs::Stills::still_same), unfolding(machine::specs::Cache::cache_of))]
pub fn cache(
    profile: Profile,
    state: State,
    mem: &mut [u8],
    tags: &mut Tags,
    op: CacheOp,
    ra: u8,
    rb: u8,
) -> State
    ensures { (result ≡ marked_of (cache_of profile state mem.old op ra rb)) × ((mem.new ≡ (cache_of profile state mem.old op ra rb).mem) × Still tags.old tags.new mem.old mem.new) }
{
    match op {
        CacheOp::Dcbf | CacheOp::Dcbi | CacheOp::Dcbt => state.next(),
        CacheOp::Dcbz => {
            drop_block(tags, state.indexed_ea(ra, rb));
            cache_marked(profile, state, mem, CacheOp::Dcbz, ra, rb)
        }
    }
}

// Of a frame stsku may store LR, two pairs and the back pointer.
fn drop_frame(tags: &mut Tags, sp: u32, ea: u32)
    ensures { Framed tags.old tags.new sp ea }
{
    drop_bytes(tags, plus(sp, 4), 4);
    drop_bytes(tags, plus(sp, 0xFFFF_FFF8), 8);
    drop_bytes(tags, plus(sp, 0xFFFF_FFF0), 8);
    drop_bytes(tags, ea, 4);
}

pub fn stack(
    profile: Profile,
    state: State,
    mem: &mut [u8],
    tags: &mut Tags,
    op: StackOp,
    ra: u8,
    dd: u16,
) -> State
    ensures { (result ≡ marked_of (stack_of profile state mem.old op ra dd)) × ((mem.new ≡ (stack_of profile state mem.old op ra dd).mem) × Still tags.old tags.new mem.old mem.new) }
{
    match op {
        StackOp::Lsku => stack_marked(profile, state, mem, StackOp::Lsku, ra, dd),
        StackOp::Stsku => {
            drop_frame(tags, state.reg(ra), state.frame_ea(ra, dd));
            stack_marked(profile, state, mem, StackOp::Stsku, ra, dd)
        }
    }
}

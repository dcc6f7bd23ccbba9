// The synchronous interrupt that an instruction raises, if it raises one.
ghost use Rattle.std.specs.Prelude.{◌≡◌};
ghost use Rattle.insn.specs.Read.{decode_on};
ghost use Rattle.tell.specs.Fault.{access_raises, load_store_raises, stack_raises, cache_raises, trap_raises, execute_raises, decoded_raises, raised_of};

use insn::instr::{CacheOp, Instr, LoadStore, StackOp};
use insn::profile::{Profile, is_42x};
use insn::read::read;
use machine::interrupt::{Cause, cause_of};
use machine::stack::{frame_served, stores};
use machine::state::State;
use memory::access::{Fault, access_at, block_access, double_access};
use memory::load::fetch;
use word::bits::{Bit, bit_at};

fn access_raises(access: Result<(), Fault>, ea: u32, store: bool) -> Option<Cause>
    ensures { result ≡ access_raises access ea store }
{
    let fault = access.err()?;
    Some(cause_of(fault, ea, store))
}

fn load_store_raises(state: State, mem: &[u8], i: LoadStore) -> Option<Cause>
    ensures { result ≡ load_store_raises state mem.now i }
{
    match i {
        LoadStore::Load { width, ra, d, .. } => {
            let ea = state.offset_ea(ra, d);
            access_raises(access_at(mem.len(), ea, width), ea, false)
        }
        LoadStore::LoadIndexed { width, ra, rb, .. } => {
            let ea = state.indexed_ea(ra, rb);
            access_raises(access_at(mem.len(), ea, width), ea, false)
        }
        LoadStore::Store { width, ra, d, .. } => {
            let ea = state.offset_ea(ra, d);
            access_raises(access_at(mem.len(), ea, width), ea, true)
        }
        LoadStore::StoreIndexed { width, ra, rb, .. } => {
            let ea = state.indexed_ea(ra, rb);
            access_raises(access_at(mem.len(), ea, width), ea, true)
        }
        LoadStore::LoadDouble { ra, d, .. } => {
            let ea = state.offset_ea(ra, d);
            access_raises(double_access(mem.len(), ea), ea, false)
        }
        LoadStore::StoreDouble { ra, d, .. } => {
            let ea = state.offset_ea(ra, d);
            access_raises(double_access(mem.len(), ea), ea, true)
        }
    }
}

fn stack_raises(state: State, mem: &[u8], op: StackOp, ra: u8, dd: u16) -> Option<Cause>
    ensures { result ≡ stack_raises state mem.now op ra dd }
{
    let missed = frame_served(mem.len(), op, state.frame(op, ra, dd)).err()?;
    Some(cause_of(missed.fault, missed.address, stores(op)))
}

fn cache_raises(state: State, mem: &[u8], op: CacheOp, ra: u8, rb: u8) -> Option<Cause>
    ensures { result ≡ cache_raises state mem.now op ra rb }
{
    match op {
        CacheOp::Dcbf | CacheOp::Dcbi | CacheOp::Dcbt => None,
        CacheOp::Dcbz => {
            let ea = state.indexed_ea(ra, rb);
            access_raises(block_access(mem.len(), ea), ea, true)
        }
    }
}

fn trap_raises(profile: Profile, state: State, word: u32, to: u8, tg: bool) -> Option<Cause>
    ensures { result ≡ trap_raises profile state word to tg }
{
    if (to == 0) | is_42x(profile) & tg {
        return None;
    }
    if bit_at(state.dbcr, Bit(7)) {
        return None;
    }
    Some(Cause::Program { word, trap: true })
}

fn execute_raises(profile: Profile, state: State, mem: &[u8], word: u32, i: Instr) -> Option<Cause>
    ensures { result ≡ execute_raises profile state mem.now word i }
{
    match i {
        Instr::LoadStore(i) => load_store_raises(state, mem, i),
        Instr::Stack { op, ra, dd, .. } => stack_raises(state, mem, op, ra, dd),
        Instr::Trap { to, tg, .. } => trap_raises(profile, state, word, to, tg),
        Instr::Cache { op, ra, rb, .. } => cache_raises(state, mem, op, ra, rb),
        Instr::Arithmetic(_)
        | Instr::Logical(_)
        | Instr::Compare(_)
        | Instr::Rotate(_)
        | Instr::Branch(_)
        | Instr::System(_) => None,
    }
}

fn decoded_raises(profile: Profile, state: State, mem: &[u8], word: u32) -> Option<Cause>
    ensures { result ≡ decoded_raises profile state mem.now word (decode_on profile word) }
{
    match read(profile, word) {
        Some(i) => execute_raises(profile, state, mem, word, i),
        None => Some(Cause::Program { word, trap: false }),
    }
}

// Of the instruction at IAR.
#[tactic(auto, unfolding(crate::specs::Fault::raised_of))]
pub fn running_raises(profile: Profile, state: State, mem: &[u8]) -> Option<Cause>
    ensures { result ≡ raised_of profile state mem.now }
{
    match fetch(mem, state.iar) {
        Ok(word) => decoded_raises(profile, state, mem, word),
        Err(_) => Some(Cause::InstructionStorage),
    }
}

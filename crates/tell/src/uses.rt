// What a step asks of the memory beside its fetch.
ghost use Rattle.std.specs.Prelude.{◌≡◌};
ghost use Rattle.word.specs.Width.{bytes};
ghost use Rattle.memory.specs.Load.{fetch_of};
ghost use Rattle.insn.specs.Read.{decode_on};
ghost use Rattle.tell.specs.Uses.{load_store_use, stack_use, cache_use, execute_use, decoded_use, fetched_use, executes, use_of};

use insn::instr::{CacheOp, Instr, LoadStore, StackOp};
use insn::profile::Profile;
use insn::read::read;
use machine::stack::Frame;
use machine::state::State;
use memory::load::fetch;
use word::bits::{Bit, bit_at};
use word::width::{Width, size};

// To read or write some bytes from an address on, or a stack frame with n doublewords between its headers.
#[derive(Clone, Copy)]
pub enum Use {
    Reads { at: u32, bytes: u8 },
    Writes { at: u32, bytes: u8 },
    Pops { sp: u32, ea: u32, n: u16 },
    Pushes { sp: u32, ea: u32, n: u16 },
}

// A width's bytes, in the type of an access's.
fn bytes(width: Width) -> u8
    ensures { result ≡ bytes width }
{
    size(width) as u8
}

fn load_store_use(state: State, i: LoadStore) -> Use
    ensures { result ≡ load_store_use state i }
{
    match i {
        LoadStore::Load { width, ra, d, .. } => Use::Reads {
            at: state.offset_ea(ra, d),
            bytes: bytes(width),
        },
        LoadStore::LoadIndexed { width, ra, rb, .. } => Use::Reads {
            at: state.indexed_ea(ra, rb),
            bytes: bytes(width),
        },
        LoadStore::Store { width, ra, d, .. } => Use::Writes {
            at: state.offset_ea(ra, d),
            bytes: bytes(width),
        },
        LoadStore::StoreIndexed { width, ra, rb, .. } => Use::Writes {
            at: state.indexed_ea(ra, rb),
            bytes: bytes(width),
        },
        LoadStore::LoadDouble { ra, d, .. } => Use::Reads {
            at: state.offset_ea(ra, d),
            bytes: 8,
        },
        LoadStore::StoreDouble { ra, d, .. } => Use::Writes {
            at: state.offset_ea(ra, d),
            bytes: 8,
        },
    }
}

fn stack_use(state: State, op: StackOp, ra: u8, dd: u16) -> Use
    ensures { result ≡ stack_use state op ra dd }
{
    let Frame { sp, ea, n, .. } = state.frame(op, ra, dd);
    match op {
        StackOp::Lsku => Use::Pops { sp, ea, n },
        StackOp::Stsku => Use::Pushes { sp, ea, n },
    }
}

fn cache_use(state: State, op: CacheOp, ra: u8, rb: u8) -> Option<Use>
    ensures { result ≡ cache_use state op ra rb }
{
    match op {
        CacheOp::Dcbf | CacheOp::Dcbi | CacheOp::Dcbt => None,
        CacheOp::Dcbz => Some(Use::Writes {
            at: state.indexed_ea(ra, rb) / 32 * 32,
            bytes: 32,
        }),
    }
}

fn execute_use(state: State, i: Instr) -> Option<Use>
    ensures { result ≡ execute_use state i }
{
    match i {
        Instr::LoadStore(i) => Some(load_store_use(state, i)),
        Instr::Stack { op, ra, dd, .. } => Some(stack_use(state, op, ra, dd)),
        Instr::Cache { op, ra, rb, .. } => cache_use(state, op, ra, rb),
        Instr::Arithmetic(_)
        | Instr::Logical(_)
        | Instr::Compare(_)
        | Instr::Rotate(_)
        | Instr::Branch(_)
        | Instr::Trap { .. }
        | Instr::System(_) => None,
    }
}

fn decoded_use(profile: Profile, state: State, word: u32) -> Option<Use>
    ensures { result ≡ decoded_use state (decode_on profile word) }
{
    execute_use(state, read(profile, word)?)
}

fn fetched_use(profile: Profile, state: State, mem: &[u8]) -> Option<Use>
    ensures { result ≡ fetched_use profile state (fetch_of mem.now state.iar) }
{
    let word = fetch(mem, state.iar).ok()?;
    decoded_use(profile, state, word)
}

// Whether a step gets to line 6.
#[tactic(auto, unfolding(crate::specs::Uses::executes))]
fn executes(state: State, event: u8) -> bool
    ensures { result ≡ executes state event }
{
    let ticked = state.tick(event);
    (state.halt == 0)
        & !state.acts(event)
        & ticked.highest(event).is_none()
        & !bit_at(ticked.msr, Bit(13))
}

// The data access that a step tries, served or not.
#[tactic(auto, unfolding(crate::specs::Uses::use_of))]
pub fn used(profile: Profile, state: State, mem: &[u8], event: u8) -> Option<Use>
    ensures { result ≡ use_of profile state mem.now event }
{
    if !executes(state, event) {
        return None;
    }
    fetched_use(profile, state.tick(event), mem)
}

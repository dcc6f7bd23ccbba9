// The step that marks a reach past its memory: a loop that ends at a halt ends there too, and of the other steps only dcbz and stack
// frames pay for the question. It is no twin of machine's step, which differs in more than a constant: where an access is judged this one marks.
ghost use Rattle.std.specs.Prelude.{◌≡◌};
ghost use Rattle.insn.specs.Read.{decode_on};
ghost use Rattle.machine.specs.LoadStore.{loaded_state, stored_state, load_store_of};
ghost use Rattle.machine.specs.Cache.{cache_of};
ghost use Rattle.machine.specs.Stack.{frame_ea, doublewords, stack_of, frame_served, frame_past};
ghost use Rattle.machine.specs.State.{gpr_of};
ghost use Rattle.machine.specs.Step.{execute_of, decoded_of, running_of, awake_of, highest_of, interruptible_of, counted_of, step_of};
ghost use Rattle.memory.specs.Access.{reaches_past};
ghost use Rattle.marked.specs.Mark.{marked_if, marked_of};

use crate::mark::mark;
use insn::instr::{CacheOp, Instr, LoadStore, StackOp};
use insn::profile::Profile;
use insn::read::read;
use machine::stack::frame_served;
use machine::state::State;
use memory::access::{Fault, block_access, reaches_past};
use memory::load::fetch;
use memory::{load, store};
use word::bits::{Bit, bit_at};

fn loaded_marked(
    profile: Profile,
    state: State,
    got: Result<u32, Fault>,
    rt: u8,
    update: bool,
    ra: u8,
    ea: u32,
) -> State
    ensures { result ≡ marked_if (reaches_past got) (loaded_state profile state got rt update ra ea) }
{
    mark(
        state.loaded(profile, got, rt, update, ra, ea),
        reaches_past(got),
    )
}

fn stored_marked(
    profile: Profile,
    state: State,
    done: Result<(), Fault>,
    update: bool,
    ra: u8,
    ea: u32,
) -> State
    ensures { result ≡ marked_if (reaches_past done) (stored_state profile state done update ra ea) }
{
    mark(
        state.stored(profile, done, update, ra, ea),
        reaches_past(done),
    )
}

#[tactic(auto, unfolding(machine::specs::LoadStore::load_store_of, machine::specs::LoadStore::store_at, machine::specs::LoadStore::store_double_at))]
pub fn load_store_marked(profile: Profile, state: State, mem: &mut [u8], i: LoadStore) -> State
    ensures { (result ≡ marked_of (load_store_of profile state mem.old i)) × (mem.new ≡ (load_store_of profile state mem.old i).mem) }
{
    match i {
        LoadStore::Load {
            width,
            update,
            rt,
            ra,
            d,
        } => {
            let ea = state.offset_ea(ra, d);
            let got = load::load(&mem[..], ea, width);
            loaded_marked(profile, state, got, rt, update, ra, ea)
        }
        LoadStore::LoadIndexed { width, rt, ra, rb } => {
            let ea = state.indexed_ea(ra, rb);
            let got = load::load(&mem[..], ea, width);
            loaded_marked(profile, state, got, rt, false, ra, ea)
        }
        LoadStore::Store {
            width,
            update,
            rs,
            ra,
            d,
        } => {
            let ea = state.offset_ea(ra, d);
            let done = store::store(mem, ea, width, state.reg(rs));
            stored_marked(profile, state, done, update, ra, ea)
        }
        LoadStore::StoreIndexed { width, rs, ra, rb } => {
            let ea = state.indexed_ea(ra, rb);
            let done = store::store(mem, ea, width, state.reg(rs));
            stored_marked(profile, state, done, false, ra, ea)
        }
        LoadStore::LoadDouble { update, dt, ra, d } => {
            let ea = state.offset_ea(ra, d);
            let got = load::load_double(&mem[..], ea);
            mark(
                state.loaded_double(profile, got, dt, update, ra, ea),
                reaches_past(got),
            )
        }
        LoadStore::StoreDouble { update, ds, ra, d } => {
            let ea = state.offset_ea(ra, d);
            let done = store::store_double(mem, ea, state.vdr(ds));
            stored_marked(profile, state, done, update, ra, ea)
        }
    }
}

#[tactic(auto, unfolding(machine::specs::Cache::cache_of, machine::specs::Cache::clear_at))]
fn cache_reaches(profile: Profile, state: State, mem: &[u8], op: CacheOp, ra: u8, rb: u8) -> bool
    ensures { result ≡ (cache_of profile state mem.now op ra rb).past }
{
    match op {
        CacheOp::Dcbf | CacheOp::Dcbi | CacheOp::Dcbt => false,
        CacheOp::Dcbz => reaches_past(block_access(mem.len(), state.indexed_ea(ra, rb))),
    }
}

pub fn cache_marked(
    profile: Profile,
    state: State,
    mem: &mut [u8],
    op: CacheOp,
    ra: u8,
    rb: u8,
) -> State
    ensures { (result ≡ marked_of (cache_of profile state mem.old op ra rb)) × (mem.new ≡ (cache_of profile state mem.old op ra rb).mem) }
{
    let past = cache_reaches(profile, state, &mem[..], op, ra, rb);
    mark(state.cache(profile, mem, op, ra, rb), past)
}

fn stack_reaches(state: State, len: usize, op: StackOp, ra: u8, dd: u16) -> bool
    ensures { result ≡ frame_past (frame_served len op (gpr_of state ra) (frame_ea state ra dd) (doublewords op dd)) }
{
    match frame_served(len, op, state.frame(op, ra, dd)) {
        Ok(()) => false,
        Err(missed) => matches!(missed.fault, Fault::Outside),
    }
}

pub fn stack_marked(
    profile: Profile,
    state: State,
    mem: &mut [u8],
    op: StackOp,
    ra: u8,
    dd: u16,
) -> State
    ensures { (result ≡ marked_of (stack_of profile state mem.old op ra dd)) × (mem.new ≡ (stack_of profile state mem.old op ra dd).mem) }
{
    let past = stack_reaches(state, mem.len(), op, ra, dd);
    mark(state.stack(profile, mem, op, ra, dd), past)
}

#[tactic(auto, unfolding(machine::specs::Step::execute_of))]
fn execute_marked(profile: Profile, state: State, mem: &mut [u8], word: u32, i: Instr) -> State
    ensures { (result ≡ marked_of (execute_of profile state mem.old word i)) × (mem.new ≡ (execute_of profile state mem.old word i).mem) }
{
    match i {
        Instr::Arithmetic(i) => state.arithmetic(i),
        Instr::Logical(i) => state.logical(i),
        Instr::Compare(i) => state.compare(i),
        Instr::Rotate(i) => state.rotate(i),
        Instr::LoadStore(i) => load_store_marked(profile, state, mem, i),
        Instr::Stack { op, ra, dd, .. } => stack_marked(profile, state, mem, op, ra, dd),
        Instr::Branch(i) => state.branch(i),
        Instr::Trap { to, tg, .. } => state.trap(profile, word, to, tg),
        Instr::System(i) => state.system(profile, i),
        Instr::Cache { op, ra, rb, .. } => cache_marked(profile, state, mem, op, ra, rb),
    }
}

fn decoded_marked(profile: Profile, state: State, mem: &mut [u8], word: u32) -> State
    ensures { (result ≡ marked_of (decoded_of profile state mem.old word (decode_on profile word))) × (mem.new ≡ (decoded_of profile state mem.old word (decode_on profile word)).mem) }
{
    match read(profile, word) {
        Some(i) => execute_marked(profile, state, mem, word, i),
        None => state.program(profile, word, false),
    }
}

#[tactic(auto, unfolding(machine::specs::Step::running_of))]
fn running_marked(profile: Profile, state: State, mem: &mut [u8]) -> State
    ensures { (result ≡ marked_of (running_of profile state mem.old)) × (mem.new ≡ (running_of profile state mem.old).mem) }
{
    let got = fetch(&mem[..], state.iar);
    match got {
        Ok(word) => decoded_marked(profile, state, mem, word),
        Err(_) => mark(state.instruction_storage(profile), reaches_past(got)),
    }
}

#[tactic(auto, unfolding(machine::specs::Step::awake_of))]
fn awake_marked(profile: Profile, state: State, mem: &mut [u8]) -> State
    ensures { (result ≡ marked_of (awake_of profile state mem.old)) × (mem.new ≡ (awake_of profile state mem.old).mem) }
{
    if bit_at(state.msr, Bit(13)) {
        return state;
    }
    running_marked(profile, state, mem)
}

fn interruptible_marked(profile: Profile, state: State, mem: &mut [u8], event: u8) -> State
    ensures { (result ≡ marked_of (interruptible_of profile state mem.old (highest_of state event))) × (mem.new ≡ (interruptible_of profile state mem.old (highest_of state event)).mem) }
{
    match state.highest(event) {
        Some(v) => state.enter(profile, v),
        None => awake_marked(profile, state, mem),
    }
}

#[tactic(auto, unfolding(machine::specs::Step::counted_of))]
fn counted_marked(profile: Profile, state: State, mem: &mut [u8], event: u8) -> State
    ensures { (result ≡ marked_of (counted_of profile state mem.old event)) × (mem.new ≡ (counted_of profile state mem.old event).mem) }
{
    let acts = state.acts(event);
    let ticked = state.tick(event);
    if acts {
        return ticked.act();
    }
    interruptible_marked(profile, ticked, mem, event)
}

// The step's lines in their order; only the last reaches anything.
#[tactic(auto, unfolding(machine::specs::Step::step_of))]
pub fn step_marked(profile: Profile, state: State, mem: &mut [u8], event: u8) -> State
    ensures { (result ≡ marked_of (step_of profile state mem.old event)) × (mem.new ≡ (step_of profile state mem.old event).mem) }
{
    if state.halt != 0 {
        return state;
    }
    counted_marked(profile, state, mem, event)
}

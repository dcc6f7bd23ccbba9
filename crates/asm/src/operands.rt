// The fields of an instruction's operands, in the order of its syntax line.
ghost use Rattle.std.specs.Prelude.{◌≡◌};
ghost use Rattle.syntax.specs.Syntax.{plain};
ghost use Rattle.asm.specs.Operands.{queued, queue_of};
ghost use Rattle.insn.specs.declared.instr.Instr.{Instr};

use insn::instr::*;
use syntax::five::Five;
use syntax::print::Queue;

fn five(a: u32, b: u32, c: u32, d: u32, e: u32) -> Queue
    ensures { result ≡ queued a b c d e }
{
    Five { a, b, c, d, e }
}

fn three(a: u32, b: u32, c: u32) -> Queue
    ensures { result ≡ queued a b c 0 0 }
{
    five(a, b, c, 0, 0)
}

fn two(a: u32, b: u32) -> Queue
    ensures { result ≡ queued a b 0 0 0 }
{
    five(a, b, 0, 0, 0)
}

pub fn queue_of(i: Instr) -> Queue
    ensures { result ≡ queue_of i }
{
    match i {
        Instr::Arithmetic(x) => arithmetic(x),
        Instr::Logical(x) => logical(x),
        Instr::Compare(x) => compare(x),
        Instr::Rotate(x) => rotate(x),
        Instr::LoadStore(x) => load_store(x),
        Instr::Stack { rt, ra, dd, .. } => three(u32::from(rt), u32::from(dd), u32::from(ra)),
        Instr::Branch(x) => branch(x),
        Instr::Trap { to, ra, rb, .. } => three(u32::from(to), u32::from(ra), u32::from(rb)),
        Instr::System(x) => system(x),
        Instr::Cache { ra, rb, .. } => two(u32::from(ra), u32::from(rb)),
    }
}

fn arithmetic(x: Arithmetic) -> Queue
    ensures { result ≡ queue_of (Instr.Arithmetic x) }
{
    match x {
        Arithmetic::Immediate { rt, ra, si, .. } => three(
            u32::from(rt),
            u32::from(ra),
            u32::from(si),
        ),
        Arithmetic::Register { rt, ra, rb, .. } => three(
            u32::from(rt),
            u32::from(ra),
            u32::from(rb),
        ),
        Arithmetic::One { rt, ra, .. } => two(u32::from(rt), u32::from(ra)),
        Arithmetic::Multiply { rt, ra, rb, .. } => three(
            u32::from(rt),
            u32::from(ra),
            u32::from(rb),
        ),
        Arithmetic::MultiplyImm { rt, ra, si } => three(
            u32::from(rt),
            u32::from(ra),
            u32::from(si),
        ),
        Arithmetic::MultiplyLow { rt, ra, rb, .. } => three(
            u32::from(rt),
            u32::from(ra),
            u32::from(rb),
        ),
    }
}

fn logical(x: Logical) -> Queue
    ensures { result ≡ queue_of (Instr.Logical x) }
{
    match x {
        Logical::Immediate { rs, ra, ui, .. } => three(u32::from(ra), u32::from(rs), u32::from(ui)),
        Logical::Register { rs, ra, rb, .. } => three(u32::from(ra), u32::from(rs), u32::from(rb)),
        Logical::One { rs, ra, .. } => two(u32::from(ra), u32::from(rs)),
    }
}

fn compare(x: Compare) -> Queue
    ensures { result ≡ queue_of (Instr.Compare x) }
{
    match x {
        Compare::Immediate { ra, imm, .. } => two(u32::from(ra), u32::from(imm)),
        Compare::Register { ra, rb, .. } => two(u32::from(ra), u32::from(rb)),
    }
}

fn rotate(x: Rotate) -> Queue
    ensures { result ≡ queue_of (Instr.Rotate x) }
{
    match x {
        Rotate::Immediate {
            rs,
            ra,
            sh,
            mb,
            me,
            ..
        } => five(
            u32::from(ra),
            u32::from(rs),
            u32::from(sh),
            u32::from(mb),
            u32::from(me),
        ),
        Rotate::Register {
            rs,
            ra,
            rb,
            mb,
            me,
            ..
        } => five(
            u32::from(ra),
            u32::from(rs),
            u32::from(rb),
            u32::from(mb),
            u32::from(me),
        ),
        Rotate::Shift { rs, ra, rb, .. } => three(u32::from(ra), u32::from(rs), u32::from(rb)),
        Rotate::Srawi { rs, ra, sh, .. } => three(u32::from(ra), u32::from(rs), u32::from(sh)),
        Rotate::Double { ds, da, sh, mb, .. } => five(
            u32::from(da),
            u32::from(ds),
            u32::from(sh),
            u32::from(mb),
            0,
        ),
    }
}

fn load_store(x: LoadStore) -> Queue
    ensures { result ≡ queue_of (Instr.LoadStore x) }
{
    match x {
        LoadStore::Load { rt, ra, d, .. } => three(u32::from(rt), u32::from(d), u32::from(ra)),
        LoadStore::LoadIndexed { rt, ra, rb, .. } => three(
            u32::from(rt),
            u32::from(ra),
            u32::from(rb),
        ),
        LoadStore::Store { rs, ra, d, .. } => three(u32::from(rs), u32::from(d), u32::from(ra)),
        LoadStore::StoreIndexed { rs, ra, rb, .. } => three(
            u32::from(rs),
            u32::from(ra),
            u32::from(rb),
        ),
        LoadStore::LoadDouble { dt, ra, d, .. } => three(
            u32::from(dt),
            u32::from(d),
            u32::from(ra),
        ),
        LoadStore::StoreDouble { ds, ra, d, .. } => three(
            u32::from(ds),
            u32::from(d),
            u32::from(ra),
        ),
    }
}

fn branch(x: Branch) -> Queue
    ensures { result ≡ queue_of (Instr.Branch x) }
{
    match x {
        Branch::Always { li, .. } => two(li, 0),
        Branch::Conditional { bo, bi, bd, .. } => three(
            u32::from(bo),
            u32::from(bi),
            u32::from(bd),
        ),
        Branch::Register { bo, bi, .. } => two(u32::from(bo), u32::from(bi)),
    }
}

fn system(x: System) -> Queue
    ensures { result ≡ queue_of (Instr.System x) }
{
    match x {
        System::Spr {
            op: SprOp::Mfspr,
            rt,
            spr,
        } => two(u32::from(rt), u32::from(spr)),
        System::Spr {
            op: SprOp::Mtspr,
            rt,
            spr,
        } => two(u32::from(spr), u32::from(rt)),
        System::Move { rt, .. } => two(u32::from(rt), 0),
        System::Wrteei { e } => two(u32::from(e), 0),
        System::Rfi => two(0, 0),
        System::Sync => two(0, 0),
    }
}

// Whether the fields that the syntax line does not write are 0.
pub fn is_plain(i: Instr) -> bool
    ensures { result ≡ plain i }
{
    match i {
        Instr::Branch(Branch::Register { bh, .. }) => bh == 0,
        Instr::Trap { tg, .. } => !tg,
        Instr::Cache { hint, .. } => hint == 0,
        _ => true,
    }
}

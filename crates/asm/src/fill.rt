// An instruction with its operands' fields in place of what it had there.
ghost use Rattle.std.specs.Prelude.{◌≡◌};
ghost use Rattle.asm.specs.Inside.{codes_in, eight_of, sixteen_of, filled, filled_arithmetic, filled_logical, filled_compare, filled_rotate, filled_load_store, filled_branch, filled_system};

use insn::instr::*;
use syntax::five::Five;
use syntax::line::Operands;

// The contents of the fields of a line's operands: a is of the last, b of the one before it. A Queue is the other way about;
// no struct of their own, which each of the uses below would have to take off.
pub type Codes = Five<u32>;

// What the fields of a line's operands hold, and 0 for one that does not fit.
pub fn codes_of(o: Operands) -> Codes
    ensures { result ≡ codes_in o }
{
    Five {
        a: o.a.unwrap_or(0),
        b: o.b.unwrap_or(0),
        c: o.c.unwrap_or(0),
        d: o.d.unwrap_or(0),
        e: o.e.unwrap_or(0),
    }
}

// What is over is cut off, as `filled` says; it cannot come.
fn eight(n: u32) -> u8
    ensures { result ≡ eight_of n }
{
    (n % 0x100) as u8
}

fn sixteen(n: u32) -> u16
    ensures { result ≡ sixteen_of n }
{
    (n % 0x1_0000) as u16
}

pub fn fill(i: Instr, o: Codes) -> Instr
    ensures { result ≡ filled i o }
{
    match i {
        Instr::Arithmetic(x) => Instr::Arithmetic(arithmetic(x, o)),
        Instr::Logical(x) => Instr::Logical(logical(x, o)),
        Instr::Compare(x) => Instr::Compare(compare(x, o)),
        Instr::Rotate(x) => Instr::Rotate(rotate(x, o)),
        Instr::LoadStore(x) => Instr::LoadStore(load_store(x, o)),
        Instr::Stack { op, .. } => Instr::Stack {
            op,
            rt: eight(o.c),
            ra: eight(o.a),
            dd: sixteen(o.b),
        },
        Instr::Branch(x) => Instr::Branch(branch(x, o)),
        Instr::Trap { tg, .. } => Instr::Trap {
            to: eight(o.c),
            ra: eight(o.b),
            rb: eight(o.a),
            tg,
        },
        Instr::System(x) => Instr::System(system(x, o)),
        Instr::Cache { op, hint, .. } => Instr::Cache {
            op,
            hint,
            ra: eight(o.b),
            rb: eight(o.a),
        },
    }
}

fn arithmetic(x: Arithmetic, o: Codes) -> Arithmetic
    ensures { result ≡ filled_arithmetic x o }
{
    match x {
        Arithmetic::Immediate { op, .. } => Arithmetic::Immediate {
            op,
            rt: eight(o.c),
            ra: eight(o.b),
            si: sixteen(o.a),
        },
        Arithmetic::Register { op, oe, rc, .. } => Arithmetic::Register {
            op,
            rt: eight(o.c),
            ra: eight(o.b),
            rb: eight(o.a),
            oe,
            rc,
        },
        Arithmetic::One { op, oe, rc, .. } => Arithmetic::One {
            op,
            rt: eight(o.b),
            ra: eight(o.a),
            oe,
            rc,
        },
        Arithmetic::Multiply { sign, rc, .. } => Arithmetic::Multiply {
            sign,
            rt: eight(o.c),
            ra: eight(o.b),
            rb: eight(o.a),
            rc,
        },
        Arithmetic::MultiplyImm { .. } => Arithmetic::MultiplyImm {
            rt: eight(o.c),
            ra: eight(o.b),
            si: sixteen(o.a),
        },
        Arithmetic::MultiplyLow { oe, rc, .. } => Arithmetic::MultiplyLow {
            rt: eight(o.c),
            ra: eight(o.b),
            rb: eight(o.a),
            oe,
            rc,
        },
    }
}

fn logical(x: Logical, o: Codes) -> Logical
    ensures { result ≡ filled_logical x o }
{
    match x {
        Logical::Immediate { op, .. } => Logical::Immediate {
            op,
            rs: eight(o.b),
            ra: eight(o.c),
            ui: sixteen(o.a),
        },
        Logical::Register { op, rc, .. } => Logical::Register {
            op,
            rs: eight(o.b),
            ra: eight(o.c),
            rb: eight(o.a),
            rc,
        },
        Logical::One { op, rc, .. } => Logical::One {
            op,
            rs: eight(o.a),
            ra: eight(o.b),
            rc,
        },
    }
}

fn compare(x: Compare, o: Codes) -> Compare
    ensures { result ≡ filled_compare x o }
{
    match x {
        Compare::Immediate { sign, .. } => Compare::Immediate {
            sign,
            ra: eight(o.b),
            imm: sixteen(o.a),
        },
        Compare::Register { sign, .. } => Compare::Register {
            sign,
            ra: eight(o.b),
            rb: eight(o.a),
        },
    }
}

fn rotate(x: Rotate, o: Codes) -> Rotate
    ensures { result ≡ filled_rotate x o }
{
    match x {
        Rotate::Immediate { op, rc, .. } => Rotate::Immediate {
            op,
            rs: eight(o.d),
            ra: eight(o.e),
            sh: sixteen(o.c),
            mb: eight(o.b),
            me: eight(o.a),
            rc,
        },
        Rotate::Register { rc, .. } => Rotate::Register {
            rs: eight(o.d),
            ra: eight(o.e),
            rb: eight(o.c),
            mb: eight(o.b),
            me: eight(o.a),
            rc,
        },
        Rotate::Shift { op, rc, .. } => Rotate::Shift {
            op,
            rs: eight(o.b),
            ra: eight(o.c),
            rb: eight(o.a),
            rc,
        },
        Rotate::Srawi { rc, .. } => Rotate::Srawi {
            rs: eight(o.b),
            ra: eight(o.c),
            sh: eight(o.a),
            rc,
        },
        Rotate::Double { op, rc, .. } => Rotate::Double {
            op,
            ds: eight(o.c),
            da: eight(o.d),
            sh: eight(o.b),
            mb: eight(o.a),
            rc,
        },
    }
}

fn load_store(x: LoadStore, o: Codes) -> LoadStore
    ensures { result ≡ filled_load_store x o }
{
    match x {
        LoadStore::Load { width, update, .. } => LoadStore::Load {
            width,
            update,
            rt: eight(o.c),
            ra: eight(o.a),
            d: sixteen(o.b),
        },
        LoadStore::LoadIndexed { width, .. } => LoadStore::LoadIndexed {
            width,
            rt: eight(o.c),
            ra: eight(o.b),
            rb: eight(o.a),
        },
        LoadStore::Store { width, update, .. } => LoadStore::Store {
            width,
            update,
            rs: eight(o.c),
            ra: eight(o.a),
            d: sixteen(o.b),
        },
        LoadStore::StoreIndexed { width, .. } => LoadStore::StoreIndexed {
            width,
            rs: eight(o.c),
            ra: eight(o.b),
            rb: eight(o.a),
        },
        LoadStore::LoadDouble { update, .. } => LoadStore::LoadDouble {
            update,
            dt: eight(o.c),
            ra: eight(o.a),
            d: sixteen(o.b),
        },
        LoadStore::StoreDouble { update, .. } => LoadStore::StoreDouble {
            update,
            ds: eight(o.c),
            ra: eight(o.a),
            d: sixteen(o.b),
        },
    }
}

fn branch(x: Branch, o: Codes) -> Branch
    ensures { result ≡ filled_branch x o }
{
    match x {
        Branch::Always { aa, lk, .. } => Branch::Always { aa, lk, li: o.a },
        Branch::Conditional { aa, lk, .. } => Branch::Conditional {
            bo: eight(o.c),
            bi: eight(o.b),
            bd: sixteen(o.a),
            aa,
            lk,
        },
        Branch::Register { op, bh, lk, .. } => Branch::Register {
            op,
            bo: eight(o.b),
            bi: eight(o.a),
            bh,
            lk,
        },
    }
}

fn system(x: System, o: Codes) -> System
    ensures { result ≡ filled_system x o }
{
    match x {
        // mfspr names the register first, mtspr last.
        System::Spr {
            op: SprOp::Mfspr,
            ..
        } => System::Spr {
            op: SprOp::Mfspr,
            rt: eight(o.b),
            spr: sixteen(o.a),
        },
        System::Spr {
            op: SprOp::Mtspr,
            ..
        } => System::Spr {
            op: SprOp::Mtspr,
            rt: eight(o.a),
            spr: sixteen(o.b),
        },
        System::Move { op, .. } => System::Move { op, rt: eight(o.a) },
        System::Wrteei { .. } => System::Wrteei { e: o.a == 1 },
        System::Rfi => System::Rfi,
        System::Sync => System::Sync,
    }
}

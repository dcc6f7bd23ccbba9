// Where the row of an instruction's mnemonic stands in the table: the letter that it begins with, and its place among that
// letter's rows.
ghost use Rattle.std.specs.Prelude.{◌≡◌, ◌<◌};
ghost use Rattle.syntax.specs.Rows.{SameRow, row_after, row_of, arith_imm_row, arith_row, arith_one_row, multiply_row, logic_imm_row, logic_row, logic_one_row, compare_imm_row, compare_row, rotate_row, rotate_double_row, shift_row, load_row, load_indexed_row, store_row, store_indexed_row, stack_row, branch_row, spr_row, move_row, cache_row};
ghost use Rattle.insn.specs.declared.instr.Instr.{Instr};

use insn::instr::*;
use word::width::Width;

#[derive(Clone, Copy)]
pub struct Row {
    pub letter: u8,
    pub row: usize,
}

fn at(letter: u8, row: usize) -> Row
    ensures { (result.letter ≡ letter) × (result.row ≡ row) }
{
    Row { letter, row }
}

// So many rows further on.
fn plus(r: Row, n: usize) -> Row
    requires { (r.row < 64) × (n < 64) }
    ensures { SameRow result (row_after r n) }
{
    at(r.letter, r.row + n)
}

pub fn row_of(i: Instr) -> Row
    ensures { result ≡ row_of i }
{
    match i {
        Instr::Arithmetic(x) => arithmetic(x),
        Instr::Logical(x) => logical(x),
        Instr::Compare(x) => compare(x),
        Instr::Rotate(x) => rotate(x),
        Instr::LoadStore(x) => load_store(x),
        Instr::Stack { op, .. } => stack_row(op),
        Instr::Branch(x) => branch(x),
        Instr::Trap { .. } => at(b't', 0),
        Instr::System(x) => system(x),
        Instr::Cache { op, .. } => cache_row(op),
    }
}

fn arithmetic(x: Arithmetic) -> Row
    ensures { SameRow result (row_of (Instr.Arithmetic x)) }
{
    match x {
        Arithmetic::Immediate { op, .. } => arith_imm_row(op),
        Arithmetic::Register { op, oe, rc, .. } => plus(
            arith_row(op),
            2 * usize::from(oe) + usize::from(rc),
        ),
        Arithmetic::One { op, oe, rc, .. } => plus(
            arith_one_row(op),
            2 * usize::from(oe) + usize::from(rc),
        ),
        Arithmetic::Multiply { sign, rc, .. } => plus(multiply_row(sign), usize::from(rc)),
        Arithmetic::MultiplyImm { .. } => at(b'm', 10),
        Arithmetic::MultiplyLow { oe, rc, .. } => at(
            b'm',
            11 + (2 * usize::from(oe) + usize::from(rc)),
        ),
    }
}

fn logical(x: Logical) -> Row
    ensures { SameRow result (row_of (Instr.Logical x)) }
{
    match x {
        Logical::Immediate { op, .. } => logic_imm_row(op),
        Logical::Register { op, rc, .. } => plus(logic_row(op), usize::from(rc)),
        Logical::One { op, rc, .. } => plus(logic_one_row(op), usize::from(rc)),
    }
}

fn compare(x: Compare) -> Row
    ensures { SameRow result (row_of (Instr.Compare x)) }
{
    match x {
        Compare::Immediate { sign, .. } => compare_imm_row(sign),
        Compare::Register { sign, .. } => compare_row(sign),
    }
}

fn rotate(x: Rotate) -> Row
    ensures { SameRow result (row_of (Instr.Rotate x)) }
{
    match x {
        Rotate::Immediate { op, rc, .. } => plus(rotate_row(op), usize::from(rc)),
        Rotate::Register { rc, .. } => at(b'r', 4 + usize::from(rc)),
        Rotate::Shift { op, rc, .. } => plus(shift_row(op), usize::from(rc)),
        Rotate::Srawi { rc, .. } => at(b's', 27 + usize::from(rc)),
        Rotate::Double { op, rc, .. } => plus(rotate_double_row(op), usize::from(rc)),
    }
}

fn load_store(x: LoadStore) -> Row
    ensures { SameRow result (row_of (Instr.LoadStore x)) }
{
    match x {
        LoadStore::Load { width, update, .. } => plus(load_row(width), usize::from(update)),
        LoadStore::LoadIndexed { width, .. } => load_indexed_row(width),
        LoadStore::Store { width, update, .. } => plus(store_row(width), usize::from(update)),
        LoadStore::StoreIndexed { width, .. } => store_indexed_row(width),
        LoadStore::LoadDouble { update, .. } => at(b'l', 9 + usize::from(update)),
        LoadStore::StoreDouble { update, .. } => at(b's', 38 + usize::from(update)),
    }
}

fn branch(x: Branch) -> Row
    ensures { SameRow result (row_of (Instr.Branch x)) }
{
    match x {
        Branch::Always { aa, lk, .. } => at(b'b', 2 * usize::from(aa) + usize::from(lk)),
        Branch::Conditional { aa, lk, .. } => at(b'b', 4 + (2 * usize::from(aa) + usize::from(lk))),
        Branch::Register { op, lk, .. } => plus(branch_row(op), usize::from(lk)),
    }
}

fn system(x: System) -> Row
    ensures { SameRow result (row_of (Instr.System x)) }
{
    match x {
        System::Spr { op, .. } => spr_row(op),
        System::Move { op, .. } => move_reg_row(op),
        System::Wrteei { .. } => at(b'w', 1),
        System::Rfi => at(b'r', 6),
        System::Sync => at(b's', 40),
    }
}

// The rows of the operations of each kind, all by mnemonic.

fn arith_imm_row(op: ArithImmOp) -> Row
    ensures { SameRow result (arith_imm_row op) × (result.row < 64) }
{
    match op {
        ArithImmOp::Addi => at(b'a', 0),
        ArithImmOp::Addis => at(b'a', 1),
        ArithImmOp::Addic => at(b'a', 2),
        ArithImmOp::AddicDot => at(b'a', 3),
        ArithImmOp::Subfic => at(b's', 0),
    }
}

fn arith_row(op: ArithOp) -> Row
    ensures { SameRow result (arith_row op) × (result.row < 64) }
{
    match op {
        ArithOp::Add => at(b'a', 4),
        ArithOp::Addc => at(b'a', 8),
        ArithOp::Adde => at(b'a', 12),
        ArithOp::Subf => at(b's', 1),
        ArithOp::Subfc => at(b's', 5),
        ArithOp::Subfe => at(b's', 9),
    }
}

fn arith_one_row(op: ArithOneOp) -> Row
    ensures { SameRow result (arith_one_row op) × (result.row < 64) }
{
    match op {
        ArithOneOp::Addme => at(b'a', 16),
        ArithOneOp::Addze => at(b'a', 20),
        ArithOneOp::Subfme => at(b's', 13),
        ArithOneOp::Subfze => at(b's', 17),
        ArithOneOp::Neg => at(b'n', 0),
    }
}

fn multiply_row(sign: Sign) -> Row
    ensures { SameRow result (multiply_row sign) × (result.row < 64) }
{
    match sign {
        Sign::Signed => at(b'm', 0),
        Sign::Unsigned => at(b'm', 2),
    }
}

fn logic_imm_row(op: LogicImmOp) -> Row
    ensures { SameRow result (logic_imm_row op) × (result.row < 64) }
{
    match op {
        LogicImmOp::AndiDot => at(b'a', 24),
        LogicImmOp::AndisDot => at(b'a', 25),
        LogicImmOp::Ori => at(b'o', 0),
        LogicImmOp::Oris => at(b'o', 1),
        LogicImmOp::Xori => at(b'x', 0),
        LogicImmOp::Xoris => at(b'x', 1),
    }
}

fn logic_row(op: LogicOp) -> Row
    ensures { SameRow result (logic_row op) × (result.row < 64) }
{
    match op {
        LogicOp::And => at(b'a', 26),
        LogicOp::Andc => at(b'a', 28),
        LogicOp::Eqv => at(b'e', 0),
        LogicOp::Nand => at(b'n', 4),
        LogicOp::Nor => at(b'n', 6),
        LogicOp::Or => at(b'o', 2),
        LogicOp::Orc => at(b'o', 4),
        LogicOp::Xor => at(b'x', 2),
    }
}

fn logic_one_row(op: LogicOneOp) -> Row
    ensures { SameRow result (logic_one_row op) × (result.row < 64) }
{
    match op {
        LogicOneOp::Extsb => at(b'e', 2),
        LogicOneOp::Extsh => at(b'e', 4),
        LogicOneOp::Cntlzw => at(b'c', 0),
    }
}

fn compare_imm_row(sign: Sign) -> Row
    ensures { SameRow result (compare_imm_row sign) × (result.row < 64) }
{
    match sign {
        Sign::Signed => at(b'c', 2),
        Sign::Unsigned => at(b'c', 3),
    }
}

fn compare_row(sign: Sign) -> Row
    ensures { SameRow result (compare_row sign) × (result.row < 64) }
{
    match sign {
        Sign::Signed => at(b'c', 4),
        Sign::Unsigned => at(b'c', 5),
    }
}

fn rotate_row(op: RotateOp) -> Row
    ensures { SameRow result (rotate_row op) × (result.row < 64) }
{
    match op {
        RotateOp::Rlwimi => at(b'r', 0),
        RotateOp::Rlwinm => at(b'r', 2),
    }
}

fn rotate_double_row(op: RotateDoubleOp) -> Row
    ensures { SameRow result (rotate_double_row op) × (result.row < 64) }
{
    match op {
        RotateDoubleOp::Rldicl => at(b'r', 7),
        RotateDoubleOp::Rldicr => at(b'r', 9),
        RotateDoubleOp::Rldimi => at(b'r', 11),
    }
}

fn shift_row(op: ShiftOp) -> Row
    ensures { SameRow result (shift_row op) × (result.row < 64) }
{
    match op {
        ShiftOp::Slw => at(b's', 21),
        ShiftOp::Srw => at(b's', 23),
        ShiftOp::Sraw => at(b's', 25),
    }
}

fn load_row(width: Width) -> Row
    ensures { SameRow result (load_row width) × (result.row < 64) }
{
    match width {
        Width::Byte => at(b'l', 0),
        Width::Half => at(b'l', 2),
        Width::Word => at(b'l', 4),
    }
}

fn load_indexed_row(width: Width) -> Row
    ensures { SameRow result (load_indexed_row width) × (result.row < 64) }
{
    match width {
        Width::Byte => at(b'l', 6),
        Width::Half => at(b'l', 7),
        Width::Word => at(b'l', 8),
    }
}

fn store_row(width: Width) -> Row
    ensures { SameRow result (store_row width) × (result.row < 64) }
{
    match width {
        Width::Byte => at(b's', 29),
        Width::Half => at(b's', 31),
        Width::Word => at(b's', 33),
    }
}

fn store_indexed_row(width: Width) -> Row
    ensures { SameRow result (store_indexed_row width) × (result.row < 64) }
{
    match width {
        Width::Byte => at(b's', 35),
        Width::Half => at(b's', 36),
        Width::Word => at(b's', 37),
    }
}

fn stack_row(op: StackOp) -> Row
    ensures { SameRow result (stack_row op) × (result.row < 64) }
{
    match op {
        StackOp::Lsku => at(b'l', 11),
        StackOp::Stsku => at(b's', 41),
    }
}

fn branch_row(op: BranchOp) -> Row
    ensures { SameRow result (branch_row op) × (result.row < 64) }
{
    match op {
        BranchOp::Bclr => at(b'b', 8),
        BranchOp::Bcctr => at(b'b', 10),
    }
}

fn spr_row(op: SprOp) -> Row
    ensures { SameRow result (spr_row op) × (result.row < 64) }
{
    match op {
        SprOp::Mfspr => at(b'm', 4),
        SprOp::Mtspr => at(b'm', 5),
    }
}

fn move_reg_row(op: MoveOp) -> Row
    ensures { SameRow result (move_row op) × (result.row < 64) }
{
    match op {
        MoveOp::Mfcr => at(b'm', 6),
        MoveOp::Mtcr0 => at(b'm', 7),
        MoveOp::Mfmsr => at(b'm', 8),
        MoveOp::Mtmsr => at(b'm', 9),
        MoveOp::Wrtee => at(b'w', 0),
    }
}

fn cache_row(op: CacheOp) -> Row
    ensures { SameRow result (cache_row op) × (result.row < 64) }
{
    match op {
        CacheOp::Dcbf => at(b'd', 0),
        CacheOp::Dcbi => at(b'd', 1),
        CacheOp::Dcbt => at(b'd', 2),
        CacheOp::Dcbz => at(b'd', 3),
    }
}

// The form of an instruction: what its opcodes say. Its operands are in its word, and are taken from there when it is executed, which is
// sooner done than to take a whole instruction out of memory (docs/SPEED.md).
ghost use Rattle.std.specs.Prelude.{◌≡◌};
ghost use Rattle.reading.specs.Form.{arithmetic_form, logical_form, compare_form, rotate_form, load_store_form, branch_form, system_form, form_of};

use insn::instr::*;
use word::width::Width;

#[derive(Clone, Copy)]
pub enum Form {
    // no word: its address is not a multiple of 4, or past memory. These and Illegal stand among the forms, since what carries them out
    // (perform/src/perform.rt) asks once for all; a Result of an Option would be asked three times
    Unaligned,
    Outside,
    Illegal,
    ArithImm(ArithImmOp),
    Arith(ArithOp),
    ArithOne(ArithOneOp),
    Multiply(Sign),
    MultiplyImm,
    MultiplyLow,
    LogicImm(LogicImmOp),
    Logic(LogicOp),
    LogicOne(LogicOneOp),
    CompareImm(Sign),
    Compare(Sign),
    RotateImm(RotateOp),
    Rotate,
    Shift(ShiftOp),
    Srawi,
    RotateDouble(RotateDoubleOp),
    Load(Width),
    LoadUpdate(Width),
    LoadIndexed(Width),
    Store(Width),
    StoreUpdate(Width),
    StoreIndexed(Width),
    LoadDouble,
    LoadDoubleUpdate,
    StoreDouble,
    StoreDoubleUpdate,
    Stack(StackOp),
    Branch,
    BranchIf,
    BranchTo(BranchOp),
    Trap,
    MoveSpr(SprOp),
    MoveReg(MoveOp),
    Wrteei,
    Rfi,
    Sync,
    Cache(CacheOp),
}

fn arithmetic_form(i: Arithmetic) -> Form
    ensures { result ≡ arithmetic_form i }
{
    match i {
        Arithmetic::Immediate { op, .. } => Form::ArithImm(op),
        Arithmetic::Register { op, .. } => Form::Arith(op),
        Arithmetic::One { op, .. } => Form::ArithOne(op),
        Arithmetic::Multiply { sign, .. } => Form::Multiply(sign),
        Arithmetic::MultiplyImm { .. } => Form::MultiplyImm,
        Arithmetic::MultiplyLow { .. } => Form::MultiplyLow,
    }
}

fn logical_form(i: Logical) -> Form
    ensures { result ≡ logical_form i }
{
    match i {
        Logical::Immediate { op, .. } => Form::LogicImm(op),
        Logical::Register { op, .. } => Form::Logic(op),
        Logical::One { op, .. } => Form::LogicOne(op),
    }
}

fn compare_form(i: Compare) -> Form
    ensures { result ≡ compare_form i }
{
    match i {
        Compare::Immediate { sign, .. } => Form::CompareImm(sign),
        Compare::Register { sign, .. } => Form::Compare(sign),
    }
}

fn rotate_form(i: Rotate) -> Form
    ensures { result ≡ rotate_form i }
{
    match i {
        Rotate::Immediate { op, .. } => Form::RotateImm(op),
        Rotate::Register { .. } => Form::Rotate,
        Rotate::Shift { op, .. } => Form::Shift(op),
        Rotate::Srawi { .. } => Form::Srawi,
        Rotate::Double { op, .. } => Form::RotateDouble(op),
    }
}

fn load_store_form(i: LoadStore) -> Form
    ensures { result ≡ load_store_form i }
{
    match i {
        LoadStore::Load {
            width,
            update: false,
            ..
        } => Form::Load(width),
        LoadStore::Load {
            width,
            update: true,
            ..
        } => Form::LoadUpdate(width),
        LoadStore::LoadIndexed { width, .. } => Form::LoadIndexed(width),
        LoadStore::Store {
            width,
            update: false,
            ..
        } => Form::Store(width),
        LoadStore::Store {
            width,
            update: true,
            ..
        } => Form::StoreUpdate(width),
        LoadStore::StoreIndexed { width, .. } => Form::StoreIndexed(width),
        LoadStore::LoadDouble { update: false, .. } => Form::LoadDouble,
        LoadStore::LoadDouble { update: true, .. } => Form::LoadDoubleUpdate,
        LoadStore::StoreDouble { update: false, .. } => Form::StoreDouble,
        LoadStore::StoreDouble { update: true, .. } => Form::StoreDoubleUpdate,
    }
}

fn branch_form(i: Branch) -> Form
    ensures { result ≡ branch_form i }
{
    match i {
        Branch::Always { .. } => Form::Branch,
        Branch::Conditional { .. } => Form::BranchIf,
        Branch::Register { op, .. } => Form::BranchTo(op),
    }
}

fn system_form(i: System) -> Form
    ensures { result ≡ system_form i }
{
    match i {
        System::Spr { op, .. } => Form::MoveSpr(op),
        System::Move { op, .. } => Form::MoveReg(op),
        System::Wrteei { .. } => Form::Wrteei,
        System::Rfi => Form::Rfi,
        System::Sync => Form::Sync,
    }
}

impl From<Instr> for Form {
    ghost from_gives = { λ i form. form ≡ form_of i };

    #[tactic(auto, unfolding(crate::specs::Form::form_of))]
    fn from(i: Instr) -> Form {
        match i {
            Instr::Arithmetic(i) => arithmetic_form(i),
            Instr::Logical(i) => logical_form(i),
            Instr::Compare(i) => compare_form(i),
            Instr::Rotate(i) => rotate_form(i),
            Instr::LoadStore(i) => load_store_form(i),
            Instr::Stack { op, .. } => Form::Stack(op),
            Instr::Branch(i) => branch_form(i),
            Instr::Trap { .. } => Form::Trap,
            Instr::System(i) => system_form(i),
            Instr::Cache { op, .. } => Form::Cache(op),
        }
    }
}

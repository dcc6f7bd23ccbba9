// A word as its instruction, or illegal: its opcodes suggest a form and a mnemonic, its parts the operands. What they make is
// read if it is valid and written as the same word. A form that names every bit always is, so there no words are compared.
// Each function takes the word apart for itself, so that only the parts it names are worked out.
ghost use Rattle.std.specs.Prelude.{◌≡◌};
ghost use Rattle.insn.specs.Codes.{arith_imm_code, arith_code, multiply_code, logic_imm_code, logic_code, rotate_code, shift_code, load_code, store_code, load_double_code, store_double_code, branch_code};
ghost use Rattle.insn.specs.Fields.{fields_of};
ghost use Rattle.insn.specs.Write.{word_of, written_of};
ghost use Rattle.insn.specs.Read.{settle_of, settled, decode_of, decode_on, load_store, added, opcode4, opcode19, opcode30, arithmetic, logical, storage, system, arith_imm_at, arith_at, arith_one_at, multiply_at, multiply_imm_at, multiply_low_at, logic_imm_at, logic_at, logic_one_at, compare_imm_at, compare_at, rotate_imm_at, rotate_at, shift_at, srawi_at, rotate_double_at, load_at, load_indexed_at, store_at, store_indexed_at, load_double_at, store_double_at, stack_at, branch_at, branch_if_at, branch_to_at, trap_at, move_spr_at, move_reg_at, wrteei_at, rfi_at, sync_at, cache_at};

use crate::fields::fields_of;
use crate::forms;
use crate::instr::*;
use crate::profile::{Profile, has};
use word::width::Width;

// As the 42X reads it, where this core has the instruction.
#[tactic(auto, unfolding(crate::specs::Read::decode_on))]
pub fn read(profile: Profile, word: u32) -> Option<Instr>
    ensures { result ≡ decode_on profile word }
{
    match read_42x(word) {
        Some(i) if has(profile, i) => Some(i),
        _ => None,
    }
}

// By the primary opcode.
#[tactic(auto, unfolding(crate::specs::Read::decode_of, crate::specs::Read::primary, crate::specs::Read::primary_rows))]
fn read_42x(word: u32) -> Option<Instr>
    ensures { result ≡ decode_of word }
{
    match fields_of(word).op {
        14 => arith_imm(word, ArithImmOp::Addi),
        15 => arith_imm(word, ArithImmOp::Addis),
        12 => arith_imm(word, ArithImmOp::Addic),
        13 => arith_imm(word, ArithImmOp::AddicDot),
        8 => arith_imm(word, ArithImmOp::Subfic),
        28 => logic_imm(word, LogicImmOp::AndiDot),
        29 => logic_imm(word, LogicImmOp::AndisDot),
        24 => logic_imm(word, LogicImmOp::Ori),
        25 => logic_imm(word, LogicImmOp::Oris),
        26 => logic_imm(word, LogicImmOp::Xori),
        27 => logic_imm(word, LogicImmOp::Xoris),
        11 => compare_imm(word, Sign::Signed),
        10 => compare_imm(word, Sign::Unsigned),
        20 => rotate_imm(word, RotateOp::Rlwimi),
        21 => rotate_imm(word, RotateOp::Rlwinm),
        23 => rotate(word),
        18 => branch(word),
        16 => branch_if(word),
        4 => read_4(word),
        19 => read_19(word),
        31 => read_31(word),
        _ => read_load_store(word),
    }
}

#[tactic(auto, unfolding(crate::specs::Read::load_store, crate::specs::Read::load_store_rows))]
fn read_load_store(word: u32) -> Option<Instr>
    ensures { result ≡ settled word (load_store (fields_of word).op (fields_of word)) }
{
    match fields_of(word).op {
        34 => load(word, Width::Byte, false),
        40 => load(word, Width::Half, false),
        32 => load(word, Width::Word, false),
        35 => load(word, Width::Byte, true),
        41 => load(word, Width::Half, true),
        33 => load(word, Width::Word, true),
        38 => store(word, Width::Byte, false),
        44 => store(word, Width::Half, false),
        36 => store(word, Width::Word, false),
        39 => store(word, Width::Byte, true),
        45 => store(word, Width::Half, true),
        37 => store(word, Width::Word, true),
        5 => load_double(word, false),
        9 => load_double(word, true),
        6 => store_double(word, false),
        22 => store_double(word, true),
        _ => read_added(word),
    }
}

// What the 42X adds.
#[tactic(auto, unfolding(crate::specs::Read::added, crate::specs::Read::added_rows))]
fn read_added(word: u32) -> Option<Instr>
    ensures { result ≡ settled word (added (fields_of word).op (fields_of word)) }
{
    match fields_of(word).op {
        7 => multiply_imm(word),
        30 => read_30(word),
        58 => stack(word, StackOp::Lsku),
        62 => stack(word, StackOp::Stsku),
        _ => None,
    }
}

// By the extended opcode under primary opcode 30.
#[tactic(auto, unfolding(crate::specs::Read::opcode30, crate::specs::Read::rows30))]
fn read_30(word: u32) -> Option<Instr>
    requires { (fields_of word).op ≡ 30 }
    ensures { result ≡ settled word (opcode30 (fields_of word).md (fields_of word)) }
{
    match fields_of(word).md {
        0 => rotate_double(word, RotateDoubleOp::Rldicl),
        1 => rotate_double(word, RotateDoubleOp::Rldicr),
        3 => rotate_double(word, RotateDoubleOp::Rldimi),
        _ => None,
    }
}

// By the extended opcode under primary opcode 4.
#[tactic(auto, unfolding(crate::specs::Read::opcode4, crate::specs::Read::rows4))]
fn read_4(word: u32) -> Option<Instr>
    requires { (fields_of word).op ≡ 4 }
    ensures { result ≡ settled word (opcode4 (fields_of word).x (fields_of word)) }
{
    match fields_of(word).x {
        424 => multiply(word, Sign::Signed),
        392 => multiply(word, Sign::Unsigned),
        _ => None,
    }
}

#[tactic(auto, unfolding(crate::specs::Read::opcode19, crate::specs::Read::rows19))]
fn read_19(word: u32) -> Option<Instr>
    requires { (fields_of word).op ≡ 19 }
    ensures { result ≡ settled word (opcode19 (fields_of word).x (fields_of word)) }
{
    match fields_of(word).x {
        16 => branch_to(word, BranchOp::Bclr),
        528 => branch_to(word, BranchOp::Bcctr),
        50 => rfi(word),
        _ => None,
    }
}

// The XO forms; what is none of them is an X form.
#[tactic(auto, unfolding(crate::specs::Read::arithmetic, crate::specs::Read::arithmetic_rows))]
fn read_31(word: u32) -> Option<Instr>
    requires { (fields_of word).op ≡ 31 }
    ensures { result ≡ settled word (arithmetic (fields_of word).x (fields_of word).xo (fields_of word)) }
{
    match fields_of(word).xo {
        266 => arith(word, ArithOp::Add),
        10 => arith(word, ArithOp::Addc),
        138 => arith(word, ArithOp::Adde),
        40 => arith(word, ArithOp::Subf),
        8 => arith(word, ArithOp::Subfc),
        136 => arith(word, ArithOp::Subfe),
        234 => arith_one(word, ArithOneOp::Addme),
        202 => arith_one(word, ArithOneOp::Addze),
        232 => arith_one(word, ArithOneOp::Subfme),
        200 => arith_one(word, ArithOneOp::Subfze),
        104 => arith_one(word, ArithOneOp::Neg),
        235 => multiply_low(word),
        _ => read_logical(word),
    }
}

#[tactic(auto, unfolding(crate::specs::Read::logical, crate::specs::Read::logical_rows))]
fn read_logical(word: u32) -> Option<Instr>
    requires { (fields_of word).op ≡ 31 }
    ensures { result ≡ settled word (logical (fields_of word).x (fields_of word)) }
{
    match fields_of(word).x {
        28 => logic(word, LogicOp::And),
        60 => logic(word, LogicOp::Andc),
        284 => logic(word, LogicOp::Eqv),
        476 => logic(word, LogicOp::Nand),
        124 => logic(word, LogicOp::Nor),
        444 => logic(word, LogicOp::Or),
        412 => logic(word, LogicOp::Orc),
        316 => logic(word, LogicOp::Xor),
        954 => logic_one(word, LogicOneOp::Extsb),
        922 => logic_one(word, LogicOneOp::Extsh),
        26 => logic_one(word, LogicOneOp::Cntlzw),
        24 => shift(word, ShiftOp::Slw),
        536 => shift(word, ShiftOp::Srw),
        792 => shift(word, ShiftOp::Sraw),
        0 => compare(word, Sign::Signed),
        32 => compare(word, Sign::Unsigned),
        824 => srawi(word),
        4 => trap(word),
        _ => read_storage(word),
    }
}

#[tactic(auto, unfolding(crate::specs::Read::storage, crate::specs::Read::storage_rows))]
fn read_storage(word: u32) -> Option<Instr>
    ensures { result ≡ settled word (storage (fields_of word).x (fields_of word)) }
{
    match fields_of(word).x {
        87 => load_indexed(word, Width::Byte),
        279 => load_indexed(word, Width::Half),
        23 => load_indexed(word, Width::Word),
        215 => store_indexed(word, Width::Byte),
        407 => store_indexed(word, Width::Half),
        151 => store_indexed(word, Width::Word),
        86 => cache(word, CacheOp::Dcbf),
        470 => cache(word, CacheOp::Dcbi),
        278 => cache(word, CacheOp::Dcbt),
        1014 => cache(word, CacheOp::Dcbz),
        _ => read_system(word),
    }
}

#[tactic(auto, unfolding(crate::specs::Read::system, crate::specs::Read::system_rows))]
fn read_system(word: u32) -> Option<Instr>
    ensures { result ≡ settled word (system (fields_of word).x (fields_of word)) }
{
    match fields_of(word).x {
        339 => move_spr(word, SprOp::Mfspr),
        467 => move_spr(word, SprOp::Mtspr),
        19 => move_reg(word, MoveOp::Mfcr),
        144 => move_reg(word, MoveOp::Mtcr0),
        83 => move_reg(word, MoveOp::Mfmsr),
        146 => move_reg(word, MoveOp::Mtmsr),
        131 => move_reg(word, MoveOp::Wrtee),
        163 => wrteei(word),
        598 => sync(word),
        _ => None,
    }
}

// The instruction, where it is valid and written as this very word: both asked at once, as a branch for each slows every step.
fn settle(word: u32, i: Instr, back: Option<u32>) -> Option<Instr>
    requires { back ≡ written_of i }
    ensures { result ≡ settle_of word i }
{
    if back.is_some() & (back.unwrap_or(0) == word) {
        Some(i)
    } else {
        None
    }
}

// The same for a form that names every bit: with its own opcode it is written as this very word.
fn settle_whole(word: u32, i: Instr, back: Option<u32>) -> Option<Instr>
    requires whole { word_of i ≡ word }
    requires written { back ≡ written_of i }
    ensures { result ≡ settle_of word i }
{
    if back.is_some() { Some(i) } else { None }
}

#[tactic(auto, using(crate::proofs::Parts::d_whole))]
fn arith_imm(word: u32, op: ArithImmOp) -> Option<Instr>
    requires { (fields_of word).op ≡ arith_imm_code op }
    ensures { result ≡ settle_of word (arith_imm_at op (fields_of word)) }
{
    let f = fields_of(word);
    let i = Instr::Arithmetic(Arithmetic::Immediate {
        op,
        rt: f.rt,
        ra: f.ra,
        si: f.imm,
    });
    settle_whole(word, i, forms::arith_imm(op, f.rt, f.ra, f.imm))
}

#[tactic(auto, using(crate::proofs::Parts::xo_whole))]
fn arith(word: u32, op: ArithOp) -> Option<Instr>
    requires { ((fields_of word).op ≡ 31) × ((fields_of word).xo ≡ arith_code op) }
    ensures { result ≡ settle_of word (arith_at op (fields_of word)) }
{
    let f = fields_of(word);
    let i = Instr::Arithmetic(Arithmetic::Register {
        op,
        rt: f.rt,
        ra: f.ra,
        rb: f.rb,
        oe: f.oe,
        rc: f.rc,
    });
    settle_whole(word, i, forms::arith(op, f.rt, f.ra, f.rb, f.oe, f.rc))
}

fn arith_one(word: u32, op: ArithOneOp) -> Option<Instr>
    ensures { result ≡ settle_of word (arith_one_at op (fields_of word)) }
{
    let f = fields_of(word);
    let i = Instr::Arithmetic(Arithmetic::One {
        op,
        rt: f.rt,
        ra: f.ra,
        oe: f.oe,
        rc: f.rc,
    });
    settle(word, i, forms::arith_one(op, f.rt, f.ra, f.oe, f.rc))
}

#[tactic(auto, using(crate::proofs::Parts::x4_whole))]
fn multiply(word: u32, sign: Sign) -> Option<Instr>
    requires { ((fields_of word).op ≡ 4) × ((fields_of word).x ≡ multiply_code sign) }
    ensures { result ≡ settle_of word (multiply_at sign (fields_of word)) }
{
    let f = fields_of(word);
    let i = Instr::Arithmetic(Arithmetic::Multiply {
        sign,
        rt: f.rt,
        ra: f.ra,
        rb: f.rb,
        rc: f.rc,
    });
    settle_whole(word, i, forms::multiply(sign, f.rt, f.ra, f.rb, f.rc))
}

#[tactic(auto, using(crate::proofs::Parts::multiply_imm_whole))]
fn multiply_imm(word: u32) -> Option<Instr>
    requires { (fields_of word).op ≡ 7 }
    ensures { result ≡ settle_of word (multiply_imm_at (fields_of word)) }
{
    let f = fields_of(word);
    let i = Instr::Arithmetic(Arithmetic::MultiplyImm {
        rt: f.rt,
        ra: f.ra,
        si: f.imm,
    });
    settle_whole(word, i, forms::multiply_imm(f.rt, f.ra, f.imm))
}

#[tactic(auto, using(crate::proofs::Parts::multiply_low_whole))]
fn multiply_low(word: u32) -> Option<Instr>
    requires { ((fields_of word).op ≡ 31) × ((fields_of word).xo ≡ 235) }
    ensures { result ≡ settle_of word (multiply_low_at (fields_of word)) }
{
    let f = fields_of(word);
    let i = Instr::Arithmetic(Arithmetic::MultiplyLow {
        rt: f.rt,
        ra: f.ra,
        rb: f.rb,
        oe: f.oe,
        rc: f.rc,
    });
    settle_whole(word, i, forms::multiply_low(f.rt, f.ra, f.rb, f.oe, f.rc))
}

#[tactic(auto, using(crate::proofs::Parts::d_whole))]
fn logic_imm(word: u32, op: LogicImmOp) -> Option<Instr>
    requires { (fields_of word).op ≡ logic_imm_code op }
    ensures { result ≡ settle_of word (logic_imm_at op (fields_of word)) }
{
    let f = fields_of(word);
    let i = Instr::Logical(Logical::Immediate {
        op,
        rs: f.rt,
        ra: f.ra,
        ui: f.imm,
    });
    settle_whole(word, i, forms::logic_imm(op, f.rt, f.ra, f.imm))
}

#[tactic(auto, using(crate::proofs::Parts::x31_whole))]
fn logic(word: u32, op: LogicOp) -> Option<Instr>
    requires { ((fields_of word).op ≡ 31) × ((fields_of word).x ≡ logic_code op) }
    ensures { result ≡ settle_of word (logic_at op (fields_of word)) }
{
    let f = fields_of(word);
    let i = Instr::Logical(Logical::Register {
        op,
        rs: f.rt,
        ra: f.ra,
        rb: f.rb,
        rc: f.rc,
    });
    settle_whole(word, i, forms::logic(op, f.rt, f.ra, f.rb, f.rc))
}

fn logic_one(word: u32, op: LogicOneOp) -> Option<Instr>
    ensures { result ≡ settle_of word (logic_one_at op (fields_of word)) }
{
    let f = fields_of(word);
    let i = Instr::Logical(Logical::One {
        op,
        rs: f.rt,
        ra: f.ra,
        rc: f.rc,
    });
    settle(word, i, forms::logic_one(op, f.rt, f.ra, f.rc))
}

fn compare_imm(word: u32, sign: Sign) -> Option<Instr>
    ensures { result ≡ settle_of word (compare_imm_at sign (fields_of word)) }
{
    let f = fields_of(word);
    let i = Instr::Compare(Compare::Immediate {
        sign,
        ra: f.ra,
        imm: f.imm,
    });
    settle(word, i, forms::compare_imm(sign, f.ra, f.imm))
}

fn compare(word: u32, sign: Sign) -> Option<Instr>
    ensures { result ≡ settle_of word (compare_at sign (fields_of word)) }
{
    let f = fields_of(word);
    let i = Instr::Compare(Compare::Register {
        sign,
        ra: f.ra,
        rb: f.rb,
    });
    settle(word, i, forms::compare(sign, f.ra, f.rb))
}

#[tactic(auto, using(crate::proofs::Parts::m_whole))]
fn rotate_imm(word: u32, op: RotateOp) -> Option<Instr>
    requires { (fields_of word).op ≡ rotate_code op }
    ensures { result ≡ settle_of word (rotate_imm_at op (fields_of word)) }
{
    let f = fields_of(word);
    let i = Instr::Rotate(Rotate::Immediate {
        op,
        rs: f.rt,
        ra: f.ra,
        sh: f.rb as u16,
        mb: f.mb,
        me: f.me,
        rc: f.rc,
    });
    settle_whole(
        word,
        i,
        forms::rotate_imm(op, f.rt, f.ra, f.rb as u16, f.mb, f.me, f.rc),
    )
}

#[tactic(auto, using(crate::proofs::Parts::rotate_whole))]
fn rotate(word: u32) -> Option<Instr>
    requires { (fields_of word).op ≡ 23 }
    ensures { result ≡ settle_of word (rotate_at (fields_of word)) }
{
    let f = fields_of(word);
    let i = Instr::Rotate(Rotate::Register {
        rs: f.rt,
        ra: f.ra,
        rb: f.rb,
        mb: f.mb,
        me: f.me,
        rc: f.rc,
    });
    settle_whole(word, i, forms::rotate(f.rt, f.ra, f.rb, f.mb, f.me, f.rc))
}

#[tactic(auto, using(crate::proofs::Parts::x31_whole))]
fn shift(word: u32, op: ShiftOp) -> Option<Instr>
    requires { ((fields_of word).op ≡ 31) × ((fields_of word).x ≡ shift_code op) }
    ensures { result ≡ settle_of word (shift_at op (fields_of word)) }
{
    let f = fields_of(word);
    let i = Instr::Rotate(Rotate::Shift {
        op,
        rs: f.rt,
        ra: f.ra,
        rb: f.rb,
        rc: f.rc,
    });
    settle_whole(word, i, forms::shift(op, f.rt, f.ra, f.rb, f.rc))
}

#[tactic(auto, using(crate::proofs::Parts::srawi_whole))]
fn srawi(word: u32) -> Option<Instr>
    requires { ((fields_of word).op ≡ 31) × ((fields_of word).x ≡ 824) }
    ensures { result ≡ settle_of word (srawi_at (fields_of word)) }
{
    let f = fields_of(word);
    let i = Instr::Rotate(Rotate::Srawi {
        rs: f.rt,
        ra: f.ra,
        sh: f.rb,
        rc: f.rc,
    });
    settle_whole(word, i, forms::srawi(f.rt, f.ra, f.rb, f.rc))
}

fn rotate_double(word: u32, op: RotateDoubleOp) -> Option<Instr>
    ensures { result ≡ settle_of word (rotate_double_at op (fields_of word)) }
{
    let f = fields_of(word);
    let i = Instr::Rotate(Rotate::Double {
        op,
        ds: f.rt,
        da: f.ra,
        sh: f.sh,
        mb: f.mb6,
        rc: f.rc,
    });
    settle(
        word,
        i,
        forms::rotate_double(op, f.rt, f.ra, f.sh, f.mb6, f.rc),
    )
}

#[tactic(auto, using(crate::proofs::Parts::d_whole))]
fn load(word: u32, width: Width, update: bool) -> Option<Instr>
    requires { (fields_of word).op ≡ load_code width update }
    ensures { result ≡ settle_of word (load_at width update (fields_of word)) }
{
    let f = fields_of(word);
    let i = Instr::LoadStore(LoadStore::Load {
        width,
        update,
        rt: f.rt,
        ra: f.ra,
        d: f.imm,
    });
    settle_whole(word, i, forms::load(width, update, f.rt, f.ra, f.imm))
}

fn load_indexed(word: u32, width: Width) -> Option<Instr>
    ensures { result ≡ settle_of word (load_indexed_at width (fields_of word)) }
{
    let f = fields_of(word);
    let i = Instr::LoadStore(LoadStore::LoadIndexed {
        width,
        rt: f.rt,
        ra: f.ra,
        rb: f.rb,
    });
    settle(word, i, forms::load_indexed(width, f.rt, f.ra, f.rb))
}

#[tactic(auto, using(crate::proofs::Parts::d_whole))]
fn store(word: u32, width: Width, update: bool) -> Option<Instr>
    requires { (fields_of word).op ≡ store_code width update }
    ensures { result ≡ settle_of word (store_at width update (fields_of word)) }
{
    let f = fields_of(word);
    let i = Instr::LoadStore(LoadStore::Store {
        width,
        update,
        rs: f.rt,
        ra: f.ra,
        d: f.imm,
    });
    settle_whole(word, i, forms::store(width, update, f.rt, f.ra, f.imm))
}

fn store_indexed(word: u32, width: Width) -> Option<Instr>
    ensures { result ≡ settle_of word (store_indexed_at width (fields_of word)) }
{
    let f = fields_of(word);
    let i = Instr::LoadStore(LoadStore::StoreIndexed {
        width,
        rs: f.rt,
        ra: f.ra,
        rb: f.rb,
    });
    settle(word, i, forms::store_indexed(width, f.rt, f.ra, f.rb))
}

#[tactic(auto, using(crate::proofs::Parts::d_whole))]
fn load_double(word: u32, update: bool) -> Option<Instr>
    requires { (fields_of word).op ≡ load_double_code update }
    ensures { result ≡ settle_of word (load_double_at update (fields_of word)) }
{
    let f = fields_of(word);
    let i = Instr::LoadStore(LoadStore::LoadDouble {
        update,
        dt: f.rt,
        ra: f.ra,
        d: f.imm,
    });
    settle_whole(word, i, forms::load_double(update, f.rt, f.ra, f.imm))
}

#[tactic(auto, using(crate::proofs::Parts::d_whole))]
fn store_double(word: u32, update: bool) -> Option<Instr>
    requires { (fields_of word).op ≡ store_double_code update }
    ensures { result ≡ settle_of word (store_double_at update (fields_of word)) }
{
    let f = fields_of(word);
    let i = Instr::LoadStore(LoadStore::StoreDouble {
        update,
        ds: f.rt,
        ra: f.ra,
        d: f.imm,
    });
    settle_whole(word, i, forms::store_double(update, f.rt, f.ra, f.imm))
}

fn stack(word: u32, op: StackOp) -> Option<Instr>
    ensures { result ≡ settle_of word (stack_at op (fields_of word)) }
{
    let f = fields_of(word);
    let i = Instr::Stack {
        op,
        rt: f.rt,
        ra: f.ra,
        dd: f.dd,
    };
    settle(word, i, forms::stack(op, f.rt, f.ra, f.dd))
}

#[tactic(auto, using(crate::proofs::Parts::i_whole))]
fn branch(word: u32) -> Option<Instr>
    requires { (fields_of word).op ≡ 18 }
    ensures { result ≡ settle_of word (branch_at (fields_of word)) }
{
    let f = fields_of(word);
    let i = Instr::Branch(Branch::Always {
        aa: f.aa,
        lk: f.rc,
        li: f.li,
    });
    settle_whole(word, i, forms::branch(f.aa, f.rc, f.li))
}

#[tactic(auto, using(crate::proofs::Parts::b_whole))]
fn branch_if(word: u32) -> Option<Instr>
    requires { (fields_of word).op ≡ 16 }
    ensures { result ≡ settle_of word (branch_if_at (fields_of word)) }
{
    let f = fields_of(word);
    let i = Instr::Branch(Branch::Conditional {
        bo: f.rt,
        bi: f.ra,
        bd: f.bd,
        aa: f.aa,
        lk: f.rc,
    });
    settle_whole(word, i, forms::branch_if(f.rt, f.ra, f.bd, f.aa, f.rc))
}

#[tactic(auto, using(crate::proofs::Parts::x19_whole))]
fn branch_to(word: u32, op: BranchOp) -> Option<Instr>
    requires { ((fields_of word).op ≡ 19) × ((fields_of word).x ≡ branch_code op) }
    ensures { result ≡ settle_of word (branch_to_at op (fields_of word)) }
{
    let f = fields_of(word);
    let i = Instr::Branch(Branch::Register {
        op,
        bo: f.rt,
        bi: f.ra,
        bh: f.rb,
        lk: f.rc,
    });
    settle_whole(word, i, forms::branch_to(op, f.rt, f.ra, f.rb, f.rc))
}

#[tactic(auto, using(crate::proofs::Parts::trap_whole))]
fn trap(word: u32) -> Option<Instr>
    requires { ((fields_of word).op ≡ 31) × ((fields_of word).x ≡ 4) }
    ensures { result ≡ settle_of word (trap_at (fields_of word)) }
{
    let f = fields_of(word);
    let i = Instr::Trap {
        to: f.rt,
        ra: f.ra,
        rb: f.rb,
        tg: f.rc,
    };
    settle_whole(word, i, forms::trap(f.rt, f.ra, f.rb, f.rc))
}

fn move_spr(word: u32, op: SprOp) -> Option<Instr>
    ensures { result ≡ settle_of word (move_spr_at op (fields_of word)) }
{
    let f = fields_of(word);
    let i = Instr::System(System::Spr {
        op,
        rt: f.rt,
        spr: f.spr,
    });
    settle(word, i, forms::move_spr(op, f.rt, f.spr))
}

fn move_reg(word: u32, op: MoveOp) -> Option<Instr>
    ensures { result ≡ settle_of word (move_reg_at op (fields_of word)) }
{
    let f = fields_of(word);
    let i = Instr::System(System::Move { op, rt: f.rt });
    settle(word, i, forms::move_reg(op, f.rt))
}

fn wrteei(word: u32) -> Option<Instr>
    ensures { result ≡ settle_of word (wrteei_at (fields_of word)) }
{
    let f = fields_of(word);
    let i = Instr::System(System::Wrteei { e: f.e });
    settle(word, i, forms::wrteei(f.e))
}

fn rfi(word: u32) -> Option<Instr>
    ensures { result ≡ settle_of word (rfi_at (fields_of word)) }
{
    let i = Instr::System(System::Rfi);
    settle(word, i, forms::rfi())
}

fn sync(word: u32) -> Option<Instr>
    ensures { result ≡ settle_of word (sync_at (fields_of word)) }
{
    let i = Instr::System(System::Sync);
    settle(word, i, forms::sync())
}

fn cache(word: u32, op: CacheOp) -> Option<Instr>
    ensures { result ≡ settle_of word (cache_at op (fields_of word)) }
{
    let f = fields_of(word);
    let i = Instr::Cache {
        op,
        hint: f.rt,
        ra: f.ra,
        rb: f.rb,
    };
    settle(word, i, forms::cache(op, f.rt, f.ra, f.rb))
}

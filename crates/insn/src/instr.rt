// The instructions of 9.4 by family, form and mnemonic, the 42X's among them. What a core ignores or takes for a hint (BO's z, a and t, BH, TG, the
// hints of dcbf and dcbt) is kept, so that two words never read as one instruction.

use word::width::Width;

#[derive(Clone, Copy)]
pub enum Instr {
    Arithmetic(Arithmetic),
    Logical(Logical),
    Compare(Compare),
    Rotate(Rotate),
    LoadStore(LoadStore),
    // lsku and stsku; rt is RS of stsku. dd comes first: with it last the run of a 42 is slower (docs/SPEED.md)
    Stack {
        dd: u16,
        op: StackOp,
        rt: u8,
        ra: u8,
    },
    Branch(Branch),
    // tw; it traps where to is 31
    Trap {
        to: u8,
        ra: u8,
        rb: u8,
        tg: bool,
    },
    System(System),
    Cache {
        op: CacheOp,
        hint: u8,
        ra: u8,
        rb: u8,
    },
}

#[derive(Clone, Copy)]
pub enum Arithmetic {
    Immediate {
        op: ArithImmOp,
        rt: u8,
        ra: u8,
        si: u16,
    },
    Register {
        op: ArithOp,
        rt: u8,
        ra: u8,
        rb: u8,
        oe: bool,
        rc: bool,
    },
    One {
        op: ArithOneOp,
        rt: u8,
        ra: u8,
        oe: bool,
        rc: bool,
    },
    // mullhw and mullhwu
    Multiply {
        sign: Sign,
        rt: u8,
        ra: u8,
        rb: u8,
        rc: bool,
    },
    // mulli
    MultiplyImm {
        rt: u8,
        ra: u8,
        si: u16,
    },
    // mullw
    MultiplyLow {
        rt: u8,
        ra: u8,
        rb: u8,
        oe: bool,
        rc: bool,
    },
}

#[derive(Clone, Copy)]
pub enum Logical {
    Immediate {
        op: LogicImmOp,
        rs: u8,
        ra: u8,
        ui: u16,
    },
    Register {
        op: LogicOp,
        rs: u8,
        ra: u8,
        rb: u8,
        rc: bool,
    },
    One {
        op: LogicOneOp,
        rs: u8,
        ra: u8,
        rc: bool,
    },
}

#[derive(Clone, Copy)]
pub enum Compare {
    // cmpwi and cmplwi
    Immediate { sign: Sign, ra: u8, imm: u16 },
    // cmpw and cmplw
    Register { sign: Sign, ra: u8, rb: u8 },
}

#[derive(Clone, Copy)]
pub enum Rotate {
    // sh has two bytes: with one this would be eight bytes, which are copied as one number and taken apart again
    Immediate {
        op: RotateOp,
        rs: u8,
        ra: u8,
        sh: u16,
        mb: u8,
        me: u8,
        rc: bool,
    },
    // rlwnm
    Register {
        rs: u8,
        ra: u8,
        rb: u8,
        mb: u8,
        me: u8,
        rc: bool,
    },
    Shift {
        op: ShiftOp,
        rs: u8,
        ra: u8,
        rb: u8,
        rc: bool,
    },
    Srawi {
        rs: u8,
        ra: u8,
        sh: u8,
        rc: bool,
    },
    // over pairs; mb is ME of rldicr
    Double {
        op: RotateDoubleOp,
        ds: u8,
        da: u8,
        sh: u8,
        mb: u8,
        rc: bool,
    },
}

#[derive(Clone, Copy)]
pub enum LoadStore {
    Load {
        width: Width,
        update: bool,
        rt: u8,
        ra: u8,
        d: u16,
    },
    LoadIndexed {
        width: Width,
        rt: u8,
        ra: u8,
        rb: u8,
    },
    Store {
        width: Width,
        update: bool,
        rs: u8,
        ra: u8,
        d: u16,
    },
    StoreIndexed {
        width: Width,
        rs: u8,
        ra: u8,
        rb: u8,
    },
    // lvd and lvdu
    LoadDouble {
        update: bool,
        dt: u8,
        ra: u8,
        d: u16,
    },
    // stvd and stvdu
    StoreDouble {
        update: bool,
        ds: u8,
        ra: u8,
        d: u16,
    },
}

#[derive(Clone, Copy)]
pub enum Branch {
    // b, bl, ba and bla
    Always {
        aa: bool,
        lk: bool,
        li: u32,
    },
    // bc, bcl, bca and bcla
    Conditional {
        bo: u8,
        bi: u8,
        bd: u16,
        aa: bool,
        lk: bool,
    },
    Register {
        op: BranchOp,
        bo: u8,
        bi: u8,
        bh: u8,
        lk: bool,
    },
}

#[derive(Clone, Copy)]
pub enum System {
    // spr is SPRN, the number itself: valid_of says which numbers are registers, and written_read speaks of all of them
    Spr { op: SprOp, rt: u8, spr: u16 },
    // rt is RT of mfcr and mfmsr, and RS of the others
    Move { op: MoveOp, rt: u8 },
    Wrteei { e: bool },
    Rfi,
    Sync,
}

#[derive(Clone, Copy)]
pub enum ArithImmOp {
    Addi,
    Addis,
    Addic,
    AddicDot,
    Subfic,
}

#[derive(Clone, Copy)]
pub enum ArithOp {
    Add,
    Addc,
    Adde,
    Subf,
    Subfc,
    Subfe,
}

#[derive(Clone, Copy)]
pub enum ArithOneOp {
    Addme,
    Addze,
    Subfme,
    Subfze,
    Neg,
}

#[derive(Clone, Copy)]
pub enum LogicImmOp {
    AndiDot,
    AndisDot,
    Ori,
    Oris,
    Xori,
    Xoris,
}

#[derive(Clone, Copy)]
pub enum LogicOp {
    And,
    Andc,
    Eqv,
    Nand,
    Nor,
    Or,
    Orc,
    Xor,
}

#[derive(Clone, Copy)]
pub enum LogicOneOp {
    Extsb,
    Extsh,
    Cntlzw,
}

#[derive(Clone, Copy)]
pub enum RotateOp {
    Rlwimi,
    Rlwinm,
}

#[derive(Clone, Copy)]
pub enum RotateDoubleOp {
    Rldicl,
    Rldicr,
    Rldimi,
}

#[derive(Clone, Copy)]
pub enum ShiftOp {
    Slw,
    Srw,
    Sraw,
}

#[derive(Clone, Copy)]
pub enum StackOp {
    Lsku,
    Stsku,
}

#[derive(Clone, Copy)]
pub enum BranchOp {
    Bclr,
    Bcctr,
}

#[derive(Clone, Copy)]
pub enum SprOp {
    Mfspr,
    Mtspr,
}

#[derive(Clone, Copy)]
pub enum MoveOp {
    Mfcr,
    Mtcr0,
    Mfmsr,
    Mtmsr,
    Wrtee,
}

#[derive(Clone, Copy)]
pub enum CacheOp {
    Dcbf,
    Dcbi,
    Dcbt,
    Dcbz,
}

// How operands are taken: cmpw and mullhw as signed numbers, cmplw and mullhwu as unsigned ones.
#[derive(Clone, Copy)]
pub enum Sign {
    Signed,
    Unsigned,
}

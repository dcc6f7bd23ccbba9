// The parts of a word, and words made of parts (Power ISA 2.07, instruction formats).
ghost use Rattle.std.specs.Prelude.{◌≡◌};
ghost use Rattle.insn.specs.Fields.{fields_of, spr_of, sh_of, mb_of, word_d, word_dd, word_x, word_xo, word_xfx, word_e, word_m, word_md, word_b, word_i};

use word::bits::*;

// A word and each of its parts that some form names.
#[derive(Clone, Copy)]
pub struct Fields {
    pub word: u32,
    pub op: u8,
    pub rt: u8,
    pub ra: u8,
    pub rb: u8,
    pub mb: u8,
    pub me: u8,
    pub x: u16,
    pub xo: u16,
    pub imm: u16,
    pub bd: u16,
    pub dd: u16,
    pub li: u32,
    pub md: u8,
    pub spr: u16,
    pub sh: u8,
    pub mb6: u8,
    pub e: bool,
    pub oe: bool,
    pub aa: bool,
    pub rc: bool,
}

#[tactic(auto, unfolding(crate::specs::Fields::fields_of))]
pub fn fields_of(word: u32) -> Fields
    ensures { result ≡ fields_of word }
{
    Fields {
        word,
        op: bits_at(word, Bit(0), Bit(5)) as u8,
        rt: bits_at(word, Bit(6), Bit(10)) as u8,
        ra: bits_at(word, Bit(11), Bit(15)) as u8,
        rb: bits_at(word, Bit(16), Bit(20)) as u8,
        mb: bits_at(word, Bit(21), Bit(25)) as u8,
        me: bits_at(word, Bit(26), Bit(30)) as u8,
        x: bits_at(word, Bit(21), Bit(30)) as u16,
        xo: bits_at(word, Bit(22), Bit(30)) as u16,
        imm: bits_at(word, Bit(16), Bit(31)) as u16,
        bd: bits_at(word, Bit(16), Bit(29)) as u16,
        dd: bits_at(word, Bit(16), Bit(28)) as u16,
        li: bits_at(word, Bit(6), Bit(29)),
        md: bits_at(word, Bit(27), Bit(29)) as u8,
        spr: spr_of(word),
        sh: sh_of(word),
        mb6: mb_of(word),
        e: bit_at(word, Bit(16)),
        oe: bit_at(word, Bit(21)),
        aa: bit_at(word, Bit(30)),
        rc: bit_at(word, Bit(31)),
    }
}

// SPRN: the word has its two halves swapped. The three that follow each name their own bits; one function of eight bit numbers is no plainer.
fn spr_of(word: u32) -> u16
    ensures { result ≡ spr_of word }
{
    let high = field_at(Bit(22), Bit(26), bits_at(word, Bit(16), Bit(20)));
    let low = field_at(Bit(27), Bit(31), bits_at(word, Bit(11), Bit(15)));
    (high + low) as u16
}

// SH of a doubleword: its first bit stands apart.
fn sh_of(word: u32) -> u8
    ensures { result ≡ sh_of word }
{
    let high = field_at(Bit(26), Bit(26), bits_at(word, Bit(30), Bit(30)));
    let low = field_at(Bit(27), Bit(31), bits_at(word, Bit(16), Bit(20)));
    (high + low) as u8
}

// MB or ME of a doubleword: its first bit comes last.
fn mb_of(word: u32) -> u8
    ensures { result ≡ mb_of word }
{
    let high = field_at(Bit(26), Bit(26), bits_at(word, Bit(26), Bit(26)));
    let low = field_at(Bit(27), Bit(31), bits_at(word, Bit(21), Bit(25)));
    (high + low) as u8
}

// Ten layouts, each with fields of its own.
pub fn word_d(op: u32, rt: u8, ra: u8, imm: u16) -> u32
    ensures { result ≡ word_d op rt ra imm }
{
    field_at(Bit(0), Bit(5), op)
        + field_at(Bit(6), Bit(10), rt as u32)
        + field_at(Bit(11), Bit(15), ra as u32)
        + field_at(Bit(16), Bit(31), imm as u32)
}

// CX is 0, and the extended opcode 3.
pub fn word_dd(op: u32, rt: u8, ra: u8, dd: u16) -> u32
    ensures { result ≡ word_dd op rt ra dd }
{
    field_at(Bit(0), Bit(5), op)
        + field_at(Bit(6), Bit(10), rt as u32)
        + field_at(Bit(11), Bit(15), ra as u32)
        + field_at(Bit(16), Bit(28), dd as u32)
        + field_at(Bit(30), Bit(31), 3)
}

pub fn word_x(op: u32, rt: u8, ra: u8, rb: u8, x: u32, rc: bool) -> u32
    ensures { result ≡ word_x op rt ra rb x rc }
{
    field_at(Bit(0), Bit(5), op)
        + field_at(Bit(6), Bit(10), rt as u32)
        + field_at(Bit(11), Bit(15), ra as u32)
        + field_at(Bit(16), Bit(20), rb as u32)
        + field_at(Bit(21), Bit(30), x)
        + field_at(Bit(31), Bit(31), digit_of(rc))
}

pub fn word_xo(rt: u8, ra: u8, rb: u8, oe: bool, xo: u32, rc: bool) -> u32
    ensures { result ≡ word_xo rt ra rb oe xo rc }
{
    field_at(Bit(0), Bit(5), 31)
        + field_at(Bit(6), Bit(10), rt as u32)
        + field_at(Bit(11), Bit(15), ra as u32)
        + field_at(Bit(16), Bit(20), rb as u32)
        + field_at(Bit(21), Bit(21), digit_of(oe))
        + field_at(Bit(22), Bit(30), xo)
        + field_at(Bit(31), Bit(31), digit_of(rc))
}

pub fn word_xfx(rt: u8, fxm: u32, x: u32) -> u32
    ensures { result ≡ word_xfx rt fxm x }
{
    field_at(Bit(0), Bit(5), 31)
        + field_at(Bit(6), Bit(10), rt as u32)
        + field_at(Bit(12), Bit(19), fxm)
        + field_at(Bit(21), Bit(30), x)
}

pub fn word_e(e: bool, x: u32) -> u32
    ensures { result ≡ word_e e x }
{
    field_at(Bit(0), Bit(5), 31)
        + field_at(Bit(16), Bit(16), digit_of(e))
        + field_at(Bit(21), Bit(30), x)
}

pub fn word_m(op: u32, rs: u8, ra: u8, rb: u16, mb: u8, me: u8, rc: bool) -> u32
    ensures { result ≡ word_m op rs ra rb mb me rc }
{
    field_at(Bit(0), Bit(5), op)
        + field_at(Bit(6), Bit(10), rs as u32)
        + field_at(Bit(11), Bit(15), ra as u32)
        + field_at(Bit(16), Bit(20), rb as u32)
        + field_at(Bit(21), Bit(25), mb as u32)
        + field_at(Bit(26), Bit(30), me as u32)
        + field_at(Bit(31), Bit(31), digit_of(rc))
}

pub fn word_md(ds: u8, da: u8, sh: u32, mb: u32, mb5: u32, md: u32, sh5: u32, rc: bool) -> u32
    ensures { result ≡ word_md ds da sh mb mb5 md sh5 rc }
{
    field_at(Bit(0), Bit(5), 30)
        + field_at(Bit(6), Bit(10), ds as u32)
        + field_at(Bit(11), Bit(15), da as u32)
        + field_at(Bit(16), Bit(20), sh)
        + field_at(Bit(21), Bit(25), mb)
        + field_at(Bit(26), Bit(26), mb5)
        + field_at(Bit(27), Bit(29), md)
        + field_at(Bit(30), Bit(30), sh5)
        + field_at(Bit(31), Bit(31), digit_of(rc))
}

pub fn word_b(bo: u8, bi: u8, bd: u16, aa: bool, lk: bool) -> u32
    ensures { result ≡ word_b bo bi bd aa lk }
{
    field_at(Bit(0), Bit(5), 16)
        + field_at(Bit(6), Bit(10), bo as u32)
        + field_at(Bit(11), Bit(15), bi as u32)
        + field_at(Bit(16), Bit(29), bd as u32)
        + field_at(Bit(30), Bit(30), digit_of(aa))
        + field_at(Bit(31), Bit(31), digit_of(lk))
}

pub fn word_i(li: u32, aa: bool, lk: bool) -> u32
    ensures { result ≡ word_i li aa lk }
{
    field_at(Bit(0), Bit(5), 18)
        + field_at(Bit(6), Bit(29), li)
        + field_at(Bit(30), Bit(30), digit_of(aa))
        + field_at(Bit(31), Bit(31), digit_of(lk))
}

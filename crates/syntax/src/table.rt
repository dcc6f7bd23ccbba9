// The syntax lines of 9.4, a row of 28 bytes for each mnemonic: the word of one of its instructions, and what stands in its
// lines. R is a register, Z a register or a lone 0, and each other upper-case letter a number: S signed and U unsigned of 16
// bits, N of five, L of six, C of two, P of ten and E of one; J and K the targets of b and bc, and F a frame in bytes.
// A row is one text with its word, not a pair: `matches` holds both against the instruction in one list of bytes.
ghost use Rattle.std.specs.Prelude.{◌≡◌, ◌*◌, ◌/◌, ◌+◌, ◌≤◌, ◌<◌, length};
ghost use Rattle.std.proofs.lemmas.List.Edits.{sets};
ghost use Rattle.insn.specs.declared.profile.Profile.{Profile};
ghost use Rattle.syntax.specs.Rows.{samples};
ghost use Rattle.syntax.specs.Inside.{row_at, word_at, rows_from, rows_on, StandFor, ReadIn, PrintedIn};

use crate::line::{Operands, line};
use crate::print::{Queue, print};
use crate::row::Row;
use expr::Stuck;
use insn::profile::Profile;

// The word of the row that has the line, and the line's operands.
#[derive(Clone, Copy)]
pub struct Found {
    pub word: u32,
    pub operands: Operands,
}

// The rows whose mnemonics begin with a letter. Those of the 42X alone stand last.
const A: &[u8] = b"\
38000000 addi R,Z,S;        \
3C000000 addis R,Z,S;       \
30000000 addic R,R,S;       \
34000000 addic. R,R,S;      \
7C000214 add R,R,R;         \
7C000215 add. R,R,R;        \
7C000614 addo R,R,R;        \
7C000615 addo. R,R,R;       \
7C000014 addc R,R,R;        \
7C000015 addc. R,R,R;       \
7C000414 addco R,R,R;       \
7C000415 addco. R,R,R;      \
7C000114 adde R,R,R;        \
7C000115 adde. R,R,R;       \
7C000514 addeo R,R,R;       \
7C000515 addeo. R,R,R;      \
7C0001D4 addme R,R;         \
7C0001D5 addme. R,R;        \
7C0005D4 addmeo R,R;        \
7C0005D5 addmeo. R,R;       \
7C000194 addze R,R;         \
7C000195 addze. R,R;        \
7C000594 addzeo R,R;        \
7C000595 addzeo. R,R;       \
70000000 andi. R,R,U;       \
74000000 andis. R,R,U;      \
7C000038 and R,R,R;         \
7C000039 and. R,R,R;        \
7C000078 andc R,R,R;        \
7C000079 andc. R,R,R;       ";

const B: &[u8] = b"\
48000000 b J;               \
48000001 bl J;              \
48000002 ba J;              \
48000003 bla J;             \
40000000 bc N,C,K;          \
40000001 bcl N,C,K;         \
40000002 bca N,C,K;         \
40000003 bcla N,C,K;        \
4E800020 bclr N,C;          \
4E800021 bclrl N,C;         \
4E800420 bcctr N,C;         \
4E800421 bcctrl N,C;        ";

const C: &[u8] = b"\
7C000034 cntlzw R,R;        \
7C000035 cntlzw. R,R;       \
2C000000 cmpwi R,S;         \
28000000 cmplwi R,U;        \
7C000000 cmpw R,R;          \
7C000040 cmplw R,R;         ";

const D: &[u8] = b"\
7C0000AC dcbf Z,R;          \
7C0003AC dcbi Z,R;          \
7C00022C dcbt Z,R;          \
7C0007EC dcbz Z,R;          ";

const E: &[u8] = b"\
7C000238 eqv R,R,R;         \
7C000239 eqv. R,R,R;        \
7C000774 extsb R,R;         \
7C000775 extsb. R,R;        \
7C000734 extsh R,R;         \
7C000735 extsh. R,R;        ";

const L: &[u8] = b"\
88020000 lbz R,S(Z);        \
8C020000 lbzu R,S(R);       \
A0020000 lhz R,S(Z);        \
A4020000 lhzu R,S(R);       \
80020000 lwz R,S(Z);        \
84020000 lwzu R,S(R);       \
7C0000AE lbzx R,Z,R;        \
7C00022E lhzx R,Z,R;        \
7C00002E lwzx R,Z,R;        \
14020000 lvd R,S(Z);        \
24020000 lvdu R,S(R);       \
E821000B lsku R,F(R);       ";

const M: &[u8] = b"\
10000350 mullhw R,R,R;      \
10000351 mullhw. R,R,R;     \
10000310 mullhwu R,R,R;     \
10000311 mullhwu. R,R,R;    \
7C0102A6 mfspr R,P;         \
7C0103A6 mtspr P,R;         \
7C000026 mfcr R;            \
7C080120 mtcr0 R;           \
7C0000A6 mfmsr R;           \
7C000124 mtmsr R;           \
1C000000 mulli R,R,S;       \
7C0001D6 mullw R,R,R;       \
7C0001D7 mullw. R,R,R;      \
7C0005D6 mullwo R,R,R;      \
7C0005D7 mullwo. R,R,R;     ";

const N: &[u8] = b"\
7C0000D0 neg R,R;           \
7C0000D1 neg. R,R;          \
7C0004D0 nego R,R;          \
7C0004D1 nego. R,R;         \
7C0003B8 nand R,R,R;        \
7C0003B9 nand. R,R,R;       \
7C0000F8 nor R,R,R;         \
7C0000F9 nor. R,R,R;        ";

const O: &[u8] = b"\
60000000 ori R,R,U;         \
64000000 oris R,R,U;        \
7C000378 or R,R,R;          \
7C000379 or. R,R,R;         \
7C000338 orc R,R,R;         \
7C000339 orc. R,R,R;        ";

const R: &[u8] = b"\
50000000 rlwimi R,R,N,N,N;  \
50000001 rlwimi. R,R,N,N,N; \
54000000 rlwinm R,R,N,N,N;  \
54000001 rlwinm. R,R,N,N,N; \
5C000000 rlwnm R,R,R,N,N;   \
5C000001 rlwnm. R,R,R,N,N;  \
4C000064 rfi;               \
78000000 rldicl R,R,L,L;    \
78000001 rldicl. R,R,L,L;   \
78000004 rldicr R,R,L,L;    \
78000005 rldicr. R,R,L,L;   \
7800000C rldimi R,R,L,L;    \
7800000D rldimi. R,R,L,L;   ";

const S: &[u8] = b"\
20000000 subfic R,R,S;      \
7C000050 subf R,R,R;        \
7C000051 subf. R,R,R;       \
7C000450 subfo R,R,R;       \
7C000451 subfo. R,R,R;      \
7C000010 subfc R,R,R;       \
7C000011 subfc. R,R,R;      \
7C000410 subfco R,R,R;      \
7C000411 subfco. R,R,R;     \
7C000110 subfe R,R,R;       \
7C000111 subfe. R,R,R;      \
7C000510 subfeo R,R,R;      \
7C000511 subfeo. R,R,R;     \
7C0001D0 subfme R,R;        \
7C0001D1 subfme. R,R;       \
7C0005D0 subfmeo R,R;       \
7C0005D1 subfmeo. R,R;      \
7C000190 subfze R,R;        \
7C000191 subfze. R,R;       \
7C000590 subfzeo R,R;       \
7C000591 subfzeo. R,R;      \
7C000030 slw R,R,R;         \
7C000031 slw. R,R,R;        \
7C000430 srw R,R,R;         \
7C000431 srw. R,R,R;        \
7C000630 sraw R,R,R;        \
7C000631 sraw. R,R,R;       \
7C000670 srawi R,R,N;       \
7C000671 srawi. R,R,N;      \
98020000 stb R,S(Z);        \
9C020000 stbu R,S(R);       \
B0020000 sth R,S(Z);        \
B4020000 sthu R,S(R);       \
90020000 stw R,S(Z);        \
94020000 stwu R,S(R);       \
7C0001AE stbx R,Z,R;        \
7C00032E sthx R,Z,R;        \
7C00012E stwx R,Z,R;        \
18020000 stvd R,S(Z);       \
58020000 stvdu R,S(R);      \
7C0004AC sync;              \
F821FFFB stsku R,F(R);      ";

const T: &[u8] = b"\
7C000008 tw N,R,R;          ";

const W: &[u8] = b"\
7C000106 wrtee R;           \
7C000146 wrteei E;          ";

const X: &[u8] = b"\
68000000 xori R,R,U;        \
6C000000 xoris R,R,U;       \
7C000278 xor R,R,R;         \
7C000279 xor. R,R,R;        ";

// The 42 is held back from all but so many rows; by their number, as `rows_on` says.
fn of_core(profile: Profile, rows: &'static [u8], count: usize) -> &'static [u8]
    requires { count * 28 ≤ length rows.now }
    ensures { result.now ≡ rows_on profile count rows.now }
{
    match profile {
        Profile::Ppe42 => &rows[..count * 28],
        Profile::Ppe42x => rows,
    }
}

fn rows_of(profile: Profile, letter: u8) -> &'static [u8]
    ensures { StandFor result.now (samples profile letter) }
{
    match letter {
        b'a' => A,
        b'b' => B,
        b'c' => C,
        b'd' => D,
        b'e' => E,
        b'l' => of_core(profile, L, 11),
        b'm' => of_core(profile, M, 10),
        b'n' => N,
        b'o' => O,
        b'r' => of_core(profile, R, 7),
        b's' => of_core(profile, S, 41),
        b't' => T,
        b'w' => W,
        b'x' => X,
        _ => b"",
    }
}

// What stands in the lines of row n.
fn row_at(rows: &[u8], n: usize) -> &[u8]
    requires { n * 28 + 28 ≤ length rows.now }
    ensures { result.now ≡ row_at rows.now n }
{
    &rows[n * 28 + 9..n * 28 + 28]
}

// The word that row n begins with.
#[tactic(auto, unfolding(crate::specs::Inside::word_at))]
fn word_at(rows: &[u8], n: usize) -> u32
    requires { n * 28 + 28 ≤ length rows.now }
    ensures { result ≡ word_at rows.now n }
{
    let run = expr::digits(rows, n * 28, true);
    (run.value % 0x1_0000_0000) as u32
}

// By the number of a row, as `rows_from` counts: `word_at` reads on in the table, and a chunk alone does not end the digits.
#[tactic(auto, using(crate::proofs::Walk::rows_row, crate::proofs::Walk::rows_end), unfolding(crate::specs::Inside::pattern_at))]
fn search(text: &[u8], rows: &[u8]) -> Result<Found, Stuck>
    ensures { result ≡ rows_from (length rows.now / 28) 0 0 rows.now text.now }
{
    let mut best = 0;
    for n in 0..rows.len() / 28 {
        match line(text, row_at(rows, n)) {
            Ok(operands) => {
                return Ok(Found {
                    word: word_at(rows, n),
                    operands,
                });
            }
            Err(stuck) => best = best.max(stuck.column),
        }
    }
    Err(Stuck { column: best })
}

// A line against the rows of a letter; or the column where no line of any of them goes on.
pub fn find(profile: Profile, letter: u8, text: &[u8]) -> Result<Found, Stuck>
    ensures { ReadIn (samples profile letter) text.now result }
{
    search(text, rows_of(profile, letter))
}

// The row of an instruction's mnemonic printed with its operands: the 42X has every row.
#[tactic(auto, using(crate::proofs::Letters::row_narrow), unfolding(crate::specs::Inside::pattern_at))]
pub fn print_row(out: &mut [u8], row: Row, fields: Queue) -> usize
    requires { (row.row < length (samples Profile.Ppe42x row.letter)) × (64 ≤ length out.old) }
    ensures { PrintedIn (samples Profile.Ppe42x row.letter) row.row fields out.old out.new result }
{
    let rows = rows_of(Profile::Ppe42x, row.letter);
    print(out, row_at(rows, row.row), fields)
}

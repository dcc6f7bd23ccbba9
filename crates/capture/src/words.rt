// Big-endian words in lent bytes, and the 36 words of a state.
ghost use Rattle.std.specs.Prelude.{◌≡◌, ◌+◌, ◌*◌, ◌≤◌, length};
ghost use Rattle.std.proofs.lemmas.List.Edits.{sets};
ghost use Rattle.capture.specs.Words.{words_at, word_bytes, state_of, words_of};

use machine::state::State;
use memory::load::word_at;
use memory::store::put_word;
use std::array;

// The 36 words from a place on.
pub fn words_at(file: &[u8], at: usize) -> [u32; 36]
    requires { at + 144 ≤ length file.now }
    ensures { result ≡ words_at 36 file.now at }
{
    array::from_fn(|k| word_at(file, at + 4 * k))
}

// Writes words from a place on.
#[tactic(auto, using(crate::proofs::Laws::put_more, crate::proofs::Laws::put_all))]
pub fn put_words(out: &mut [u8], at: usize, words: &[u32])
    requires { at + 4 * length words.now ≤ length out.old }
    ensures { out.new ≡ sets out.old at (word_bytes words.now) }
{
    for (k, word) in words.iter().enumerate() {
        put_word(out, at + 4 * k, *word);
    }
}

// The state that 36 words stand for, in the order of a capture.
#[tactic(auto, unfolding(crate::specs::Words::state_of))]
pub fn state_of_words(words: [u32; 36]) -> State
    ensures { result ≡ state_of words }
{
    let mut gpr = [0; 16];
    gpr.copy_from_slice(&words[..16]);
    State {
        gpr,
        cr: words[16],
        ctr: words[17],
        dacr: words[18],
        dbcr: words[19],
        dec: words[20],
        edr: words[21],
        isr: words[22],
        ivpr: words[23],
        lr: words[24],
        msr: words[25],
        pir: words[26],
        pvr: words[27],
        sprg0: words[28],
        srr0: words[29],
        srr1: words[30],
        tcr: words[31],
        tsr: words[32],
        xer: words[33],
        iar: words[34],
        halt: words[35],
    }
}

// The 36 words of a state, in that order.
pub fn words_of_state(state: State) -> [u32; 36]
    ensures { result ≡ words_of state }
{
    let mut words = [0; 36];
    words[..16].copy_from_slice(&state.gpr);
    words[16..].copy_from_slice(&[
        state.cr,
        state.ctr,
        state.dacr,
        state.dbcr,
        state.dec,
        state.edr,
        state.isr,
        state.ivpr,
        state.lr,
        state.msr,
        state.pir,
        state.pvr,
        state.sprg0,
        state.srr0,
        state.srr1,
        state.tcr,
        state.tsr,
        state.xer,
        state.iar,
        state.halt,
    ]);
    words
}

// The state whose words stand from a place on.
pub fn state_at(file: &[u8], at: usize) -> State
    requires { at + 144 ≤ length file.now }
    ensures { result ≡ state_of (words_at 36 file.now at) }
{
    state_of_words(words_at(file, at))
}

// Writes a state's words from a place on.
pub fn put_state(out: &mut [u8], at: usize, state: State)
    requires { at + 144 ≤ length out.old }
    ensures { out.new ≡ sets out.old at (word_bytes (words_of state)) }
{
    let words = words_of_state(state);
    put_words(out, at, &words);
}

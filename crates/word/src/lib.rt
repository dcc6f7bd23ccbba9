// Words of 32 bits, and what the manual's pseudocode does to them (1.2, 2.11.3, 2.11.4, 9.4).
#![tactic(auto)]

pub mod bits; // bits.rt: bit numbers, shift amounts, and the parts of a word
pub mod width; // width.rt: bytes, halfwords and words
pub mod logical; // logical.rt: and, or, xor and their complements, count of leading zeros
pub mod sum; // sum.rt: a sum with its carry and overflow
pub mod sign; // sign.rt: EXTS
pub mod shift; // shift.rt: slw, srw, sraw
pub mod rotate; // rotate.rt: ROTL, MASK, and insertion under a mask
pub mod compare; // compare.rt: CR0 after a compare and after a result
pub mod multiply; // multiply.rt: products of two words and of their low halfwords
pub mod double; // double.rt: ROTL, MASK, insertion and CR0 for doublewords

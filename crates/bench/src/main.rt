// The small program: runs a capture from standard input for 1,000 steps and prints one line.
#![tactic(auto)]

ghost use Rattle.std.specs.Prelude.{◌≡◌, ◌%◌, ◌≤◌, length, IfOk};
ghost use Rattle.bench.specs.Hex.{hex_digit, hex_of};

use insn::profile::Profile;
use machine::refusal::Refusal;
use run::outcome::Outcome;
use std::io;
use std::io::{Read, Write};

// An upper-case hex digit.
fn hex_digit(n: u32) -> u8
    ensures { result ≡ hex_digit (n % 16) }
{
    let d = (n % 16) as u8;
    if d < 10 { b'0' + d } else { b'A' + d - 10 }
}

// A word as eight hex digits. No contract of the library says what {:08X} writes.
#[tactic(auto, unfolding(crate::specs::Hex::hex_of))]
fn hex(word: u32) -> [u8; 8]
    ensures { result ≡ hex_of word }
{
    [
        hex_digit(word / 0x1000_0000),
        hex_digit(word / 0x100_0000),
        hex_digit(word / 0x10_0000),
        hex_digit(word / 0x1_0000),
        hex_digit(word / 0x1000),
        hex_digit(word / 0x100),
        hex_digit(word / 0x10),
        hex_digit(word),
    ]
}

// The capture is played in its own memory part.
#[tactic(auto, using(crate::proofs::Laws::part_le, crate::proofs::Laws::part_taken))]
fn played(file: &mut [u8]) -> Result<Outcome, Refusal> {
    let state = capture::read::state_of(Profile::Ppe42, &file[..])?;
    let size = capture::read::memory_part(Profile::Ppe42, &file[..]).len();
    run::run::run(Profile::Ppe42, state, &mut file[..size], b"", 1000)
}

fn print_played(rt: &impl Print, played: Result<Outcome, Refusal>) -> io::Result<()> {
    match played {
        Ok(Outcome { state, halt, steps }) => {
            print!(rt; "steps {steps} halt {halt} iar ")?;
            io::writer(rt).write_all(&hex(state.iar))?;
            println!(rt; "")
        }
        Err(refusal) => println!(rt; "refused {}", u32::from(refusal)),
    }
}

// Reads until the buffer is full or the input ends, and says how many bytes came.
fn read_full(input: &mut impl Read, buffer: &mut [u8]) -> io::Result<usize>
    ensures { IfOk result (λ n. n ≤ length buffer.new) }
{
    let mut n = 0;
    for _ in 0..buffer.len() {
        let got = input.read(&mut buffer[n..])?;
        if got == 0 {
            break;
        }
        n += got;
    }
    Ok(n)
}

fn main(rt: HostRuntime) -> io::Result<()> {
    let mut buffer = [0u8; 65537];
    let n = read_full(&mut rt.reader(), &mut buffer)?;
    if n > 65536 {
        println!(rt; "too long")
    } else {
        print_played(&rt, played(&mut buffer[..n]))
    }
}

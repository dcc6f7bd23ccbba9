// Lends a state to the single step, turn after turn, and says whether it ends where a run ends.
#![tactic(auto)]

ghost use Rattle.std.specs.Prelude.{◌≡◌, []};
ghost use Rattle.insn.specs.declared.profile.Profile.{Profile};
ghost use Rattle.run.specs.Lent.{counted, lent_of};

use insn::profile::Profile;
use machine::refusal::Refusal;
use machine::state::State;
use run::lent::step_lent;
use run::outcome::{Outcome, Stop};
use std::io;

// What a loop of lent steps leaves beside the memory.
#[derive(Clone, Copy)]
struct Left {
    state: State,
    steps: u32,
}

// A refused step counts none.
fn counted(answer: Result<Stop, Refusal>) -> u32
    ensures { result ≡ counted answer }
{
    answer.map_or(0, |stop| stop.steps)
}

// Lends the state `budget` times; one that has halted answers no step and stays.
#[tactic(auto, using(crate::proofs::Laws::one_at_most))]
fn lent_run(start: State, mem: &mut [u8], budget: u32) -> Left
    ensures { (result.state ≡ (lent_of Profile.Ppe42 budget 0 [] start mem.old).st) × ((result.steps ≡ (lent_of Profile.Ppe42 budget 0 [] start mem.old).steps) × (mem.new ≡ (lent_of Profile.Ppe42 budget 0 [] start mem.old).mem)) }
{
    let mut state = start;
    let mut steps = 0;
    for _i in 0..budget {
        steps += counted(step_lent(&mut state, mem, 0));
    }
    Left { state, steps }
}

// addi r3, r3, 1; stw r3, 28(0); b -8: a sum goes up, and is stored.
fn program() -> [u8; 32] {
    let mut mem = [0u8; 32];
    capture::words::put_words(&mut mem, 0, &[0x3863_0001, 0x9060_001C, 0x4BFF_FFF8]);
    mem
}

fn print_end(rt: &impl Print, steps: u32, halt: u32, iar: u32) -> io::Result<()> {
    println!(rt; "lent steps end as the run: steps {steps} halt {halt} iar {iar:08x}")
}

fn main(rt: HostRuntime) -> io::Result<()> {
    let start = capture::words::state_of_words([0; 36]);
    let mut mem = program();
    let mut lent = program();
    let played = run::run::run(Profile::Ppe42, start, &mut mem, b"", 1000);
    let left = lent_run(start, &mut lent, 1000);
    match played {
        Ok(Outcome { state, halt, steps })
            if mem == lent && state == left.state && steps == left.steps => {
            print_end(&rt, steps, halt, state.iar)
        }
        _ => println!(rt; "lent steps end otherwise"),
    }
}

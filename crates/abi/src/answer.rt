// What all C functions share: answers as one number, a state as 144 lent bytes.
ghost use Rattle.std.specs.Prelude.{◌≡◌, ◌<◌, ◌^◌, IfOk};
ghost use Rattle.abi.specs.Answer.{refused_of, answer_of, lent_of};

use machine::refusal::Refusal;
use machine::state::State;

// A refusal's number times 2^32, and a count.
#[tactic(auto, using(crate::proofs::Laws::number_small))]
pub fn refused(refusal: Refusal, count: u32) -> u64
    ensures value { result ≡ refused_of refusal count }
    ensures small { result < 2 ^ 63 }
{
    u64::from(u32::from(refusal)) * 0x1_0000_0000 + u64::from(count)
}

// A count, or a refusal.
pub fn answer(count: Result<u64, Refusal>) -> u64
    ensures value { result ≡ answer_of count }
    ensures small { IfOk count (λ n. n < 2 ^ 32) → result < 2 ^ 63 }
{
    count.unwrap_or_else(|refusal| refused(refusal, 0))
}

// The state that is lent as 144 bytes; any other length is refused as no capture is (docs/DECISIONS.md D31).
#[tactic(auto, unfolding(crate::specs::Answer::lent_of))]
pub fn lent_state(bytes: &[u8]) -> Result<State, Refusal>
    ensures { result ≡ lent_of bytes.now }
{
    if bytes.len() == 144 {
        Ok(capture::words::state_at(bytes, 0))
    } else {
        Err(Refusal::Capture)
    }
}

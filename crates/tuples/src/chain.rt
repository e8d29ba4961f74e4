// The chain of tuples: what stands at a place of a buffer, and the next tuple from there on.
ghost use Rattle.std.specs.Prelude.{◌≡◌};
ghost use Rattle.tuples.specs.Chain.{step_at, next_at};

use super::{END_MARK, Entry, NULL_CODE};
use answers::Refusal;
use ground::TupleBuffer;

// What stands at a place of a tuple buffer, where the chain is not broken.
#[derive(Clone, Copy)]
pub(crate) enum Step {
    Tuple(Entry),
    Null,
    End,
}

// "Code, link, then link bytes of body. 00H is one byte, skipped; FFH ends the chain."
#[tactic(auto, unfolding(crate::specs::Chain::step_at))]
pub(crate) fn step_at(buffer: &TupleBuffer, at: usize) -> Result<Step, Refusal>
    ensures { result ≡ step_at buffer.now at }
{
    let code = *buffer.get(at).ok_or(Refusal::ChainBroken)?;
    match code {
        END_MARK => Ok(Step::End),
        NULL_CODE => Ok(Step::Null),
        _ => {
            let link = *buffer.get(at + 1).ok_or(Refusal::ChainBroken)?;
            if buffer.len() < at + 2 + usize::from(link) {
                return Err(Refusal::ChainBroken);
            }
            Ok(Step::Tuple(Entry {
                code,
                start: (at + 2) as u16,
                length: u16::from(link),
            }))
        }
    }
}

// The next tuple from a place on; null tuples are passed. The place goes on by what stands there, so it counts nothing.
#[tactic(auto, using(crate::proofs::Chains::next_by, crate::proofs::Chains::in_buffer))]
pub(crate) fn next_tuple(buffer: &TupleBuffer, from: usize) -> Option<Entry>
    ensures { result ≡ next_at buffer.now from }
{
    let mut at = from;
    loop {
        match step_at(buffer, at) {
            Ok(Step::Tuple(entry)) => return Some(entry),
            Ok(Step::Null) => at += 1,
            Ok(Step::End) | Err(_) => return None,
        }
    }
}

// The reader: it surveys the whole chain, then fills the list.
ghost use Rattle.std.specs.Prelude.{◌≡◌, ◌≤◌, length, take};
ghost use Rattle.tuples.specs.Chain.{chain_at, next_at, place_behind};
ghost use Rattle.tuples.specs.Read.{counted, Reads};

use super::{Entry, LIST_PLACES};
use crate::chain;
use crate::chain::Step;
use answers::{Outcome, Refusal};
use ground::TupleBuffer;

// The survey of a chain: the count of its tuples, where it is whole. The place goes on by what stands there, so it is no index.
#[tactic(auto, using(crate::proofs::Counts::added_none, crate::proofs::Counts::added_by))]
fn count_tuples(buffer: &TupleBuffer) -> Result<u16, Refusal>
    ensures { result ≡ counted (chain_at buffer.now 0) }
{
    let mut at = 0;
    let mut count = 0;
    loop {
        match chain::step_at(buffer, at)? {
            Step::Tuple(entry) => {
                count += 1;
                at = entry.end();
            }
            Step::Null => at += 1,
            Step::End => return Ok(count),
        }
    }
}

// The tuple buffer, and a place in it.
#[derive(Clone, Copy)]
struct Reader<'a> {
    buffer: &'a TupleBuffer,
    place: usize,
}

impl Reader<'_> {
    // The reader hands out the next tuple and goes on to the place behind it; where no tuple is left, it stays.
    fn advance(&mut self) -> Option<Entry>
        ensures same { self.new.buffer ≡ self.old.buffer }
        ensures next { result ≡ next_at self.old.buffer.now self.old.place }
        ensures place { self.new.place ≡ place_behind result self.old.place }
    {
        let next = chain::next_tuple(self.buffer, self.place);
        if let Some(entry) = next {
            self.place = entry.end();
        }
        next
    }
}

// The first tuples of a chain, into a list of no more places than it has tuples.
fn fill(buffer: &TupleBuffer, list: &mut [Entry])
    requires { length list.old ≤ length (chain_at buffer.now 0).entries }
    ensures { list.new ≡ take (length list.old) (chain_at buffer.now 0).entries }
{
    let mut reader = Reader { buffer, place: 0 };
    for place in list.iter_mut() {
        *place = reader.advance().unwrap();
    }
}

// The reader: "walks a lent buffer and fills a lent list of entries". "Tuple reading checks 5, 16, 13." A refusal changes nothing, so the whole chain
// is surveyed first.
pub fn read_tuples(buffer: &[u8], list: &mut [Entry]) -> Outcome
    ensures { Reads buffer.now list.old result list.new }
{
    let Ok(buffer) = <&TupleBuffer>::try_from(buffer) else {
        return Err(Refusal::TupleBufferLength);
    };
    if list.len() < LIST_PLACES {
        return Err(Refusal::ListTooShort);
    }
    let count = count_tuples(buffer)?;
    fill(buffer, &mut list[..usize::from(count)]);
    Ok(count)
}

// Lists of tuples for `trial`: a list of one entry many times read into or written, and a chain written back. `trial` calls these, which lend
// lists of their own.
#![tactic(auto)]

ghost use Rattle.std.specs.Prelude.{◌≡◌, ◌-◌, length, slice_set};
ghost use Rattle.tuples.specs.Write.{Writes};
ghost use Rattle.trial_lists.specs.Lists.{counted_as, HandedAfter, made, WritesBack};

use answers::Outcome;
use tuples::{Entry, read, write};

// The places of the longest list.
const MOST_PLACES: usize = 256;

// An entry, with the answer of the reading that handed it out: a refused one leaves the place's entry, so there is always one.
#[derive(Clone, Copy)]
pub struct Handed {
    pub outcome: Outcome,
    pub entry: Entry,
}

// A chain is read into a list of so many places, at most 256, that all held one entry; what the place of this number holds then is handed out.
pub fn read_into(buffer: &[u8], places: usize, before: Entry, number: usize) -> Handed
    ensures { HandedAfter buffer.now places before number result }
{
    let n = places.min(MOST_PLACES);
    let mut list = [before; MOST_PLACES];
    let outcome = read::read_tuples(buffer, &mut list[..n]);
    let entry = list[number.min(MOST_PLACES - 1)];
    Handed { outcome, entry }
}

// A chain is read, and written back over the same bytes: null tuples are dropped.
pub fn write_back(buffer: &[u8], out: &mut [u8]) -> Outcome
    ensures { WritesBack buffer.now out.old result out.new }
{
    let mut list = [tuples::NO_ENTRY; tuples::LIST_PLACES];
    let n = read::read_tuples(buffer, &mut list)?;
    write::write_tuples(&list[..usize::from(n)], buffer, out)
}

// The last place of a list is given an entry, where it has one.
fn set_last(list: &mut [Entry], last: Entry)
    ensures { list.new ≡ slice_set list.old (length list.old - 1) last }
{
    if let Some(place) = list.last_mut() {
        *place = last;
    }
}

// A list of so many tuples, at most 256, is written: all are `first`, and the last is `last`.
pub fn write_made(first: Entry, last: Entry, count: usize, bodies: &[u8], out: &mut [u8]) -> Outcome
    ensures { Writes bodies.now (made (counted_as count) first last) out.old result out.new }
{
    let mut places = [first; MOST_PLACES];
    let list = &mut places[..count.min(MOST_PLACES)];
    set_last(list, last);
    write::write_tuples(list, bodies, out)
}

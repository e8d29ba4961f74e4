// The writer: it looks at the whole list, then puts its tuples into the buffer.
ghost use Rattle.std.specs.Prelude.{◌≡◌, ◌≤◌, min, true, length};
ghost use Rattle.std.specs.List.{list_all};
ghost use Rattle.tuples.specs.Page.{new_page, pages, Puts};
ghost use Rattle.tuples.specs.Rows.{bytes_taken};
ghost use Rattle.tuples.specs.Write.{all_good, good, most_bytes, tuple_bytes, Writes};

use super::{END_MARK, Entry, MOST_BYTES};
use answers::{Outcome, Refusal};
use arrayvec::ArrayVec;
use ground::TUPLE_BUFFER_BYTES;

// Whether all tuples may be written: refusal 15 otherwise.
fn all_good(list: &[Entry], bodies: &[u8]) -> bool
    ensures { result ≡ list_all (good bodies.now) list.now }
{
    list.iter().all(|entry| entry.is_good(bodies))
}

// The bytes that the tuples take, up to the largest number: `sum` would want a bound on the list's length.
fn bytes_taken(list: &[Entry]) -> usize
    ensures { result ≡ min (bytes_taken list.now) usize.MAX }
{
    list.iter()
        .fold(0, |n: usize, entry| n.saturating_add(entry.size()))
}

// The bytes of the list's tuples, one tuple after the other.
fn tuple_bytes(list: &[Entry], bodies: &[u8]) -> ArrayVec<u8, MOST_BYTES>
    requires good { all_good bodies.now list.now ≡ true }
    requires short { length (tuple_bytes bodies.now list.now) ≤ most_bytes }
    ensures { result.items ≡ tuple_bytes bodies.now list.now }
{
    let mut bytes = ArrayVec::new();
    for entry in list {
        bytes.push(entry.code);
        bytes.push(entry.length as u8);
        bytes.try_extend_from_slice(entry.body(bodies)).unwrap();
    }
    bytes
}

// The writer: "takes such a list, whole, over lent body bytes and sets all 256 bytes". "Writing checks 5, 15, 14." It promises so much in other words
// too: what it does is what is done with a page that is made tuple by tuple.
pub fn write_tuples(list: &[Entry], bodies: &[u8], out: &mut [u8]) -> Outcome
    ensures writes { Writes bodies.now list.now out.old result out.new }
    ensures by_page { Puts (pages bodies.now new_page list.now) out.old result out.new }
{
    if out.len() != TUPLE_BUFFER_BYTES {
        return Err(Refusal::TupleBufferLength);
    }
    if !all_good(list, bodies) {
        return Err(Refusal::TupleBad);
    }
    if MOST_BYTES < bytes_taken(list) {
        return Err(Refusal::TuplesTooLong);
    }
    let tuples = tuple_bytes(list, bodies);
    out.fill(END_MARK);
    out[..tuples.len()].copy_from_slice(&tuples);
    Ok(0)
}

// 01, "Data": what of a word an access moves.
ghost use Rattle.std.specs.Prelude.{◌≡◌, ◌<◌, set};
ghost use Rattle.ground.specs.Sizes.{last_word};
ghost use Rattle.port.specs.Halves.{take_of, part_value, with_part, half_of, halved, next_word};

use super::{Fill, Part};
use ground::Sector;
use maps::Port;
use registers::{Half, Transfer};

// What an access at a port may take of a word, and what becomes of the word with it.
#[tactic(auto, unfolding(crate::specs::Halves::take_of))]
pub(crate) fn take_of(half: Half, port: Port) -> Option<(Part, Fill)>
    ensures { result ≡ take_of half port }
{
    match (half, port) {
        (Half::Nothing, Port::Even) => Some((Part::Low, Fill::Begun)),
        (Half::Nothing, Port::Odd) => Some((Part::High, Fill::Begun)),
        (Half::Nothing, Port::Word) => Some((Part::Both, Fill::Full)),
        (Half::Low, Port::Even | Port::Odd) => Some((Part::High, Fill::Full)),
        (Half::Low, Port::Word) => None, // a word begun halfway
        (Half::High, Port::Even) => Some((Part::Low, Fill::Full)),
        (Half::High, Port::Odd | Port::Word) => None,
    }
}

// By an index: with a slice's `get_mut` the proof did not close, since nothing is known of the elements after it.
fn set_byte(buffer: &mut Sector, at: usize, byte: u8)
    ensures { buffer.new ≡ set buffer.old at byte }
{
    if at < buffer.len() {
        buffer[at] = byte;
    }
}

// The part of the word that stands in the buffer.
pub(crate) fn part_value(part: Part, words: u16, buffer: &Sector) -> u16
    ensures { result ≡ part_value part words buffer.now }
{
    let at = 2 * usize::from(words);
    match part {
        Part::Low => u16::from(ground::byte_or_zero(buffer, at)),
        Part::High => u16::from(ground::byte_or_zero(buffer, at + 1)),
        Part::Both => u16::from_le_bytes([
            ground::byte_or_zero(buffer, at),
            ground::byte_or_zero(buffer, at + 1),
        ]),
    }
}

// The part of the word is written into the buffer.
pub(crate) fn put_part(part: Part, words: u16, value: u16, buffer: &mut Sector)
    ensures { buffer.new ≡ with_part part words value buffer.old }
{
    let at = 2 * usize::from(words);
    let [low, high] = value.to_le_bytes();
    match part {
        Part::Low => set_byte(buffer, at, low),
        Part::High => set_byte(buffer, at + 1, low),
        Part::Both => {
            set_byte(buffer, at, low);
            set_byte(buffer, at + 1, high);
        }
    }
}

fn half_of(part: Part) -> Half
    ensures { result ≡ half_of part }
{
    match part {
        Part::Low => Half::Low,
        Part::High => Half::High,
        Part::Both => Half::Nothing,
    }
}

// The transfer with a word begun.
pub(crate) fn halved(transfer: Transfer, part: Part) -> Transfer
    ensures { result ≡ halved part transfer }
{
    Transfer {
        half: half_of(part),
        ..transfer
    }
}

pub(crate) fn next_word(transfer: Transfer) -> Transfer
    requires { transfer.words < last_word }
    ensures { result ≡ next_word transfer }
{
    Transfer {
        half: Half::Nothing,
        words: transfer.words + 1,
        ..transfer
    }
}

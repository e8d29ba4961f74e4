// 02, "Fourteen": the integrity word, word 255 of Identify.
ghost use Rattle.std.specs.Prelude.{◌≡◌, ◌%◌, take};
ghost use Rattle.identify.specs.Integrity.{integrity_at, sum_of, with_integrity};

use ground::Sector;

// The place of its low byte, and that byte.
const INTEGRITY_AT: usize = 510;

const INTEGRITY_LOW: u8 = 0xA5;

// Bytes summed with wrap-around in eight bits.
fn wrapped_sum(bytes: &[u8]) -> u8
    ensures { result ≡ sum_of bytes.now % 256 }
{
    bytes
        .iter()
        .fold(0, |sum: u8, byte| sum.wrapping_add(*byte))
}

// The integrity word after the bytes before it, whatever they are: the high byte is what the others lack.
#[tactic(auto, using(crate::proofs::Sums::put_in))]
pub(crate) fn put_integrity(buffer: &mut Sector)
    ensures { buffer.new ≡ with_integrity (take integrity_at buffer.old) }
{
    buffer[INTEGRITY_AT] = INTEGRITY_LOW;
    buffer[INTEGRITY_AT + 1] = 0;
    let sum = wrapped_sum(buffer);
    buffer[INTEGRITY_AT + 1] = 0u8.wrapping_sub(sum);
}

// Identify: 256 words, from the default and the current geometry and the number of marks that are not 0; the last of them is the integrity word.
#![tactic(auto)]

ghost use Rattle.std.specs.Prelude.{◌≡◌, ◌/◌};
ghost use Rattle.ground.specs.Tables.{lookup};
ghost use Rattle.geometry.specs.Limits.{total_of, capacity_of};
ghost use Rattle.identify.specs.Words.{low_half, high_half, to_word61, byte_of, identify_bytes};

use geometry::Geometry;
use ground::{SECTOR_BYTES, Sector};

mod integrity;

// The bytes of words 0 to 61; after them only words 129 and 255 are told, and the rest is 0.
// One loop over words 0 to 254 was tried and is slower: 5,096 instructions an Identify for 3,355, and 129.7 for 128.7 an access of polling.
const TABLE_BYTES: usize = 124;

// 02: the place of the low byte of word 129.
const BAD_AT: usize = 258;

// What Identify tells.
#[derive(Clone, Copy)]
pub struct Facts {
    pub default: Geometry,
    pub current: Geometry,
    pub bad: u16, // the number of marks that are not 0
}

// Halves by division: to_le_bytes would give bytes to be joined again.
fn low_half(n: usize) -> u16
    ensures { result ≡ low_half n }
{
    (n % 65536) as u16
}

fn high_half(n: usize) -> u16
    ensures { result ≡ high_half n }
{
    (n / 65536 % 65536) as u16
}

impl Facts {
    // N.
    fn total(self) -> usize
        ensures { result ≡ total_of self.default }
    {
        usize::from(self.default.total())
    }

    // The table's rows to word 61.
    fn word(self, n: usize) -> u16
        ensures { result ≡ lookup (to_word61 self) n 0 }
    {
        match n {
            0 => 0x848A,
            1 => self.default.cylinders,
            3 => self.default.heads,
            6 => self.default.sectors,
            7 => high_half(self.total()),
            8 => low_half(self.total()),
            10..=19 | 23..=26 | 27..=46 => 0x2020,
            47 => 0x0010, // 02: the largest block
            49 => 0x0200,
            53 => 1,
            54 => self.current.cylinders,
            55 => self.current.heads,
            56 => self.current.sectors,
            57 => low_half(self.current.capacity()),
            58 => high_half(self.current.capacity()),
            60 => low_half(self.total()),
            61 => high_half(self.total()),
            _ => 0,
        }
    }

    // Byte i of words 0 to 61, low half first.
    #[tactic(auto, using(crate::proofs::Bytes::half_of))]
    fn byte(self, i: usize) -> u8
        ensures { result ≡ byte_of i (lookup (to_word61 self) (i / 2) 0) }
    {
        self.word(i / 2).to_le_bytes()[i % 2]
    }

    // All 512 bytes into the buffer.
    pub fn identify(self, buffer: &mut Sector)
        ensures { buffer.new ≡ identify_bytes self }
    {
        *buffer = [0u8; SECTOR_BYTES];
        for (i, byte) in buffer[..TABLE_BYTES].iter_mut().enumerate() {
            *byte = self.byte(i);
        }
        buffer[BAD_AT..BAD_AT + 2].copy_from_slice(&self.bad.to_le_bytes());
        integrity::put_integrity(buffer);
    }
}

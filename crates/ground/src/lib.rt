// What every crate stands on: the sizes of 01, and small functions; in its definitions the choice by a test, rows, tables and what a call leaves, and the
// laws about tests and lists that the proofs cite.
#![tactic(auto)]

ghost use Rattle.std.specs.Prelude.{◌≡◌, get_or};

// 01: the bytes of a sector, and of the buffer that each passes through.
pub const SECTOR_BYTES: usize = 512;

pub type Sector = [u8; SECTOR_BYTES];

// 01: the bytes of the tuple buffer.
pub const TUPLE_BUFFER_BYTES: usize = 256;

pub type TupleBuffer = [u8; TUPLE_BUFFER_BYTES];

// 01: a sector moves as 256 words; the number of the last.
pub const LAST_WORD: u16 = 255;

// 01: "Count 0 means 256": the most sectors of a command.
pub const MOST_COUNT: u16 = 256;

// A byte of a slice, 0 past its end.
pub fn byte_or_zero(bytes: &[u8], i: usize) -> u8
    ensures { result ≡ get_or bytes.now i 0 }
{
    bytes.get(i).copied().unwrap_or(0)
}

// Rows of bytes: how much of one is lent, how its bytes are set, and their sum.
ghost use Rattle.std.specs.Prelude.{◌≤◌};

use ground::SECTOR_BYTES;

// A row, and how many of its first bytes are lent.
#[derive(Drop)]
pub(crate) struct Row<const N: usize> {
    pub(crate) bytes: [u8; N],
    lent: usize,
    ghost inside: { lent ≤ N },
}

impl<const N: usize> Row<N> {
    // A row of one byte, of which nothing is lent.
    pub(crate) fn filled(byte: u8) -> Row<N> {
        Row {
            bytes: [byte; N],
            lent: 0,
        }
    }

    // A length above the size counts as the size.
    pub(crate) fn lend(&mut self, length: usize) {
        self.lent = length.min(N);
    }

    pub(crate) fn lent(&self) -> &[u8] {
        &self.bytes[..self.lent]
    }

    // Step by step: the proof doesn't follow `&mut self.bytes[..self.lent]` where N is a parameter.
    pub(crate) fn lent_mut(&mut self) -> &mut [u8] {
        let lent = self.lent;
        let bytes = &mut self.bytes;
        let row = &mut bytes[..];
        &mut row[..lent]
    }
}

// The bytes go to the row from a place; one that would lie outside is dropped.
pub(crate) fn put(row: &mut [u8], place: u16, bytes: &[u8]) {
    for (at, byte) in row.iter_mut().skip(usize::from(place)).zip(bytes) {
        *at = *byte;
    }
}

// The bytes of a sector, each the one before plus a step.
pub(crate) fn fill(store: &mut [u8], sector: u16, first: u8, step: u8) {
    let mut sectors = store.chunks_exact_mut(SECTOR_BYTES);
    if let Some(bytes) = sectors.nth(usize::from(sector)) {
        let mut value = first;
        for byte in bytes {
            *byte = value;
            value = value.wrapping_add(step);
        }
    }
}

pub(crate) fn sum(bytes: &[u8]) -> u16 {
    bytes.iter().fold(0, |sum, byte| {
        ((31 * u32::from(sum) + u32::from(*byte) + 1) % 65521) as u16
    })
}

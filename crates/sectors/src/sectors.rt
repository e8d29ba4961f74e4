// Whole sectors of a lent store: one read into the buffer, one stored and its mark cleared.
ghost use Rattle.std.specs.Prelude.{◌≡◌, ◌+◌, ◌*◌, ◌≤◌, length};
ghost use Rattle.ground.specs.Sizes.{sector_bytes};
ghost use Rattle.sectors.specs.Sectors.{sector_of, with_sector, buffer_read, store_marks, stored};

use super::marks::lowered;
use ground::{SECTOR_BYTES, Sector};

// Sector i of a store that has it.
#[tactic(auto, unfolding(crate::specs::Sectors::sector_of))]
fn get_sector(store: &[u8], i: usize, buffer: &mut Sector)
    requires { sector_bytes * i + sector_bytes ≤ length store.now }
    ensures { buffer.new ≡ sector_of store.now i }
{
    let start = SECTOR_BYTES * i;
    buffer.copy_from_slice(&store[start..start + SECTOR_BYTES]);
}

// 01: the store's part from 512 times the index is lent on and filled from the buffer.
#[tactic(auto, unfolding(crate::specs::Sectors::with_sector))]
fn put_sector(store: &mut [u8], i: usize, bytes: &Sector)
    requires { sector_bytes * i + sector_bytes ≤ length store.old }
    ensures { store.new ≡ with_sector store.old i bytes.now }
{
    let start = SECTOR_BYTES * i;
    store[start..start + SECTOR_BYTES].copy_from_slice(bytes);
}

// Sector i comes into the buffer.
#[tactic(auto, unfolding(crate::specs::Sectors::buffer_read))]
pub fn fetch_sector(store: &[u8], i: usize, buffer: &mut Sector)
    ensures { buffer.new ≡ buffer_read store.now i buffer.old }
{
    if i < store.len() / SECTOR_BYTES {
        get_sector(store, i, buffer);
    }
}

// The bytes are stored as sector i, its mark is cleared, and the number of marks that are not 0 is given as it is then: the one place for a write
// and for Erase.
#[tactic(auto, unfolding(crate::specs::Sectors::stored))]
pub fn store_sector(store: &mut [u8], marks: &mut [u8], bad: u16, i: usize, bytes: &Sector) -> u16
    ensures { store_marks store.new marks.new result ≡ stored (store_marks store.old marks.old bad) i bytes.now }
{
    if i < store.len() / SECTOR_BYTES && i < marks.len() {
        put_sector(store, i, bytes);
        let left = lowered(marks[i], bad);
        marks[i] = 0;
        left
    } else {
        bad
    }
}

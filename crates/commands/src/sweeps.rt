// Verify and Erase: a run of sectors, one after the other, with no data moved.
ghost use Rattle.std.specs.Prelude.{◌≡◌};
ghost use Rattle.ground.specs.Left.{leaving};
ghost use Rattle.sectors.specs.Sectors.{store_marks};
ghost use Rattle.commands.specs.Sweeps.{verify_from, verify_run, erase_from, erase_run};

use ground::SECTOR_BYTES;
use registers::{Core, State};
use transfers::{End, Way};

// Two loops: Verify is lent the marks to read and no store. One loop for both would take a trait with two impls, and a proof that `verify_from` and
// `erase_from`, which the theorems go by, are its instances.

// 40H 41H, sector after sector.
#[tactic(auto, using(crate::proofs::Loops::verify_end, crate::proofs::Loops::verify_fails, crate::proofs::Loops::verify_step))]
fn verify(mut state: State, count: u16, marks: &[u8]) -> Core
    ensures { result ≡ verify_from count state marks.now }
{
    let total = state.total(); // asked once: at each sector it took half as many instructions more
    for left in (0..count).rev() {
        if let Err(end) = transfers::before::sector_test_by(total, state, Way::In, marks) {
            return transfers::ends::ended(state, end);
        }
        state = transfers::steps::sector_done(state, left);
    }
    transfers::ends::ended(state, End::Good)
}

// C0H, sector after sector.
#[tactic(auto, using(crate::proofs::Loops::erase_end))]
fn erase(mut state: State, count: u16, store: &mut [u8], marks: &mut [u8]) -> Core
    ensures { leaving result (store_marks store.new marks.new result.state.bad) ≡ erase_from count state store.old marks.old }
{
    let bytes = [0xFFu8; SECTOR_BYTES];
    for left in (0..count).rev() {
        let stored = transfers::before::sector_stored(state, &bytes, store, marks);
        state.bad = stored.bad;
        if let Err(end) = stored.tested {
            return transfers::ends::ended(state, end);
        }
        state = transfers::steps::sector_done(state, left);
    }
    transfers::ends::ended(state, End::Good)
}

// 40H 41H: a run past the end ends before its first sector.
#[tactic(auto, unfolding(crate::specs::Sweeps::verify_run))]
pub(crate) fn verify_run(state: State, count: u16, marks: &[u8]) -> Core
    ensures { result ≡ verify_run count state marks.now }
{
    if transfers::before::past_end(state, count) {
        return transfers::ends::ended(state, End::PastEnd);
    }
    verify(state, count, marks)
}

// C0H: likewise.
#[tactic(auto, unfolding(crate::specs::Sweeps::erase_run))]
pub(crate) fn erase_run(state: State, count: u16, store: &mut [u8], marks: &mut [u8]) -> Core
    ensures { leaving result (store_marks store.new marks.new result.state.bad) ≡ erase_run count state store.old marks.old }
{
    if transfers::before::past_end(state, count) {
        return transfers::ends::ended(state, End::PastEnd);
    }
    erase(state, count, store, marks)
}

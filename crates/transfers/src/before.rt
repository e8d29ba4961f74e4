// The tests before a sector, whether a run of sectors is past the end, and the storing of a sector.
ghost use Rattle.std.specs.Prelude.{◌≡◌};
ghost use Rattle.ground.specs.Left.{leaving};
ghost use Rattle.geometry.specs.Address.{locate};
ghost use Rattle.sectors.specs.Sectors.{store_marks};
ghost use Rattle.transfers.specs.Before.{address_test, past_end, allows, mark_end, mark_tested, tested_of, sector_test, sector_stored};

use super::{End, Stored, Tested, Way};
use ground::Sector;
use registers::State;

// N is asked for by the caller: a run of sectors asks once.
fn address_test_by(total: u16, state: State) -> Tested
    ensures { result ≡ tested_of (locate state.registers.address state.current total) }
{
    Ok(state.registers.address.locate(state.current, total)?)
}

#[tactic(auto, unfolding(crate::specs::Before::address_test))]
pub(crate) fn address_test(state: State) -> Tested
    ensures { result ≡ address_test state }
{
    address_test_by(state.total(), state)
}

// 02, "Six": whether a run of so many sectors, from a good start, is past the end.
#[tactic(auto, unfolding(crate::specs::Before::past_end))]
pub fn past_end(state: State, count: u16) -> bool
    ensures { result ≡ past_end count state }
{
    state
        .located()
        .is_ok_and(|spot| spot.remain < usize::from(count))
}

impl Way {
    // Whether the mark lets the sector be read or verified, or be stored.
    fn allows(self, mark: u8) -> bool
        ensures { result ≡ allows self mark }
    {
        match self {
            Way::In => sectors::marks::readable(mark),
            Way::Out => sectors::marks::writable(mark),
        }
    }

    fn mark_end(self) -> End
        ensures { result ≡ mark_end self }
    {
        match self {
            Way::In => End::Unreadable,
            Way::Out => End::WriteFault,
        }
    }
}

// Of a sector to be read or verified, or to be stored, on a card of `total` sectors.
pub fn sector_test_by(total: u16, state: State, way: Way, marks: &[u8]) -> Tested
    ensures { result ≡ mark_tested (allows way) (mark_end way) (tested_of (locate state.registers.address state.current total)) marks.now }
{
    let spot = address_test_by(total, state)?;
    if way.allows(ground::byte_or_zero(marks, spot.index)) {
        Ok(spot)
    } else {
        Err(way.mark_end())
    }
}

// The same on this card.
#[tactic(auto, unfolding(crate::specs::Before::sector_test, crate::specs::Before::address_test))]
pub fn sector_test(state: State, way: Way, marks: &[u8]) -> Tested
    ensures { result ≡ sector_test way state marks.now }
{
    sector_test_by(state.total(), state, way, marks)
}

// The sector is stored and its mark cleared, and if that was not 0 the number of such marks lowered with it, unless a test fails: for a write and for Erase.
#[tactic(auto, unfolding(crate::specs::Before::sector_stored))]
pub fn sector_stored(state: State, bytes: &Sector, store: &mut [u8], marks: &mut [u8]) -> Stored
    ensures { leaving result.tested (store_marks store.new marks.new result.bad) ≡ sector_stored state bytes.now store.old marks.old }
{
    let tested = sector_test(state, Way::Out, marks);
    let bad = match tested {
        Ok(spot) => sectors::sectors::store_sector(store, marks, state.bad, spot.index, bytes),
        Err(_) => state.bad,
    };
    Stored { tested, bad }
}

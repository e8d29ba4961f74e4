// What is read off the card's state.
ghost use Rattle.std.specs.Prelude.{◌≡◌};
ghost use Rattle.geometry.specs.Address.{valid_address};
ghost use Rattle.registers.specs.State.{sreset_in, index_in, transfer_of, runs, line_of, total_in, located_in};

use super::{Phase, State, Transfer};
use geometry::{BadAddress, Spot};

// ---- 01, "Maps": the Configuration Option Register

// Bit 7.
pub fn sreset_in(option: u8) -> bool
    ensures { result ≡ sreset_in option }
{
    option >= 128
}

// Bits 5..0.
pub fn index_in(option: u8) -> u8
    ensures { result ≡ index_in option }
{
    option % 64
}

impl Phase {
    // The transfer that runs, whichever way it goes.
    pub(crate) fn transfer(self) -> Option<Transfer>
        ensures { result ≡ transfer_of self }
    {
        match self {
            Phase::Idle => None,
            Phase::DataIn(transfer) | Phase::DataOut(transfer) => Some(transfer),
        }
    }

    // Whether a transfer runs.
    pub fn runs(self) -> bool
        ensures { result ≡ runs self }
    {
        !matches!(self, Phase::Idle)
    }
}

impl State {
    // The interrupt line: the interrupt mark is set and bit 1 is clear.
    pub fn line(self) -> bool
        ensures { result ≡ line_of self }
    {
        !self.control.masked && self.interrupt
    }

    // N.
    pub fn total(self) -> u16
        ensures { result ≡ total_in self }
    {
        self.made.default.total()
    }

    // Where the address registers point.
    pub fn located(self) -> Result<Spot, BadAddress>
        ensures { result ≡ located_in self }
    {
        self.registers.address.locate(self.current, self.total())
    }

    // Whether the address registers name a sector.
    pub(crate) fn valid_address(self) -> bool
        ensures { result ≡ valid_address (located_in self) }
    {
        self.located().is_ok()
    }
}

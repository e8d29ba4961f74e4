// Sectors and the transfer that moves them: how a command ends, the tests before a sector, a transfer's start, and what the last byte of a sector does.
#![tactic(auto)]

ghost use Rattle.std.specs.Prelude.{◌≡◌};
ghost use Rattle.transfers.specs.Before.{address_end};

pub mod before;
pub mod ends;
pub mod steps;

use geometry::{BadAddress, Spot};

// 01, "Commands": the codes of mark 1, of mark 2 and of a command that is none; `geometry` has those of an address and of 91H.
pub const UNREADABLE_CODE: u8 = 0x11;

pub const WRITE_FAULT_CODE: u8 = 0x03;

pub const NO_SUCH_COMMAND_CODE: u8 = 0x20;

// How a command ends: well, or by the test of the command table that failed. No Result: Good has a Status, an Error and a code as the others have.
#[derive(Clone, Copy)]
pub enum End {
    Good,
    BadHeadOrSector,
    BadCylinder,
    BadLba,
    PastEnd,
    Unreadable,
    WriteFault,
    BadGeometry,
    NoSuchCommand,
}

impl From<BadAddress> for End {
    ghost from_gives = { λ bad e. e ≡ address_end bad };

    fn from(bad: BadAddress) -> End {
        match bad {
            BadAddress::HeadOrSector => End::BadHeadOrSector,
            BadAddress::Cylinder => End::BadCylinder,
            BadAddress::Lba => End::BadLba,
        }
    }
}

// What the tests before a sector say: where it stands, or how the command ends.
pub type Tested = Result<Spot, End>;

// What storing a sector gives: what the tests before it said, and the number of marks that are not 0, as it is then.
#[derive(Clone, Copy)]
pub struct Stored {
    pub tested: Tested,
    pub bad: u16,
}

// This and the order below are enums, and no closures: theorems name them, and a closure for the mark's test would travel with the end that it gives.

// Which way a sector or the buffer goes: in, where it is read (a sector also verified), or out, where it is written (a sector also erased).
#[derive(Clone, Copy)]
pub enum Way {
    In,
    Out,
}

// Which write sector is asked for: the first of a command, or a later one.
#[derive(Clone, Copy)]
pub enum Order {
    First,
    Later,
}

// How a command ends.
ghost use Rattle.std.specs.Prelude.{◌≡◌};
ghost use Rattle.transfers.specs.Ends.{end_status, end_error, end_code, ended, reading_ended};

use super::End;
use registers::{Core, Phase, State};

impl End {
    fn status(self) -> u8
        ensures { result ≡ end_status self }
    {
        match self {
            End::Good => registers::IDLE_STATUS,
            End::BadHeadOrSector
            | End::BadCylinder
            | End::BadLba
            | End::PastEnd
            | End::Unreadable
            | End::BadGeometry
            | End::NoSuchCommand => registers::ERROR_STATUS,
            End::WriteFault => registers::FAULT_STATUS,
        }
    }

    fn error(self, error: u8) -> u8
        ensures { result ≡ end_error self error }
    {
        match self {
            End::Good => error,
            End::BadHeadOrSector | End::BadCylinder | End::BadLba | End::PastEnd => registers::IDNF,
            End::Unreadable => registers::UNC,
            End::WriteFault | End::BadGeometry | End::NoSuchCommand => registers::ABRT,
        }
    }

    fn code(self, code: u8) -> u8
        ensures { result ≡ end_code self code }
    {
        match self {
            End::Good => code,
            End::BadHeadOrSector => geometry::BAD_HEAD_OR_SECTOR_CODE,
            End::BadCylinder | End::BadLba | End::PastEnd => geometry::BAD_CYLINDER_OR_LBA_CODE,
            End::Unreadable => super::UNREADABLE_CODE,
            End::WriteFault => super::WRITE_FAULT_CODE,
            End::BadGeometry => geometry::BAD_GEOMETRY_CODE,
            End::NoSuchCommand => super::NO_SUCH_COMMAND_CODE,
        }
    }
}

// A command ends, and the interrupt mark is set.
pub fn ended(mut state: State, end: End) -> Core
    ensures { result ≡ ended end state }
{
    state.registers.status = end.status();
    state.registers.error = end.error(state.registers.error);
    state.code = end.code(state.code);
    state.interrupt = true;
    Core {
        phase: Phase::Idle,
        state,
    }
}

// A good end of reading data leaves the interrupt mark.
pub(crate) fn reading_ended(state: State) -> Core
    ensures { result ≡ reading_ended state }
{
    let mut core = ended(state, End::Good);
    core.state.interrupt = state.interrupt;
    core
}

// The two resets: SRESET in the Configuration Option Register, and bit 2 of Device Control.
ghost use Rattle.std.specs.Prelude.{◌≡◌};
ghost use Rattle.registers.specs.Resets.{turn_of, rest_status, entered, option_turned, buffer_turned, control_turned, control_written, option_core, option_buffer};

use super::{Control, Core, Phase, State};
use ground::{SECTOR_BYTES, Sector};

// What writing a reset's bit does to the hold. An enum, and no closure: the definitions of both resets go by its cases.
#[derive(Clone, Copy)]
pub enum Turn {
    Enter,
    Leave,
    Stay,
}

// Was the card held, is the bit set now.
#[tactic(auto, unfolding(crate::specs::Resets::turn_of))]
fn turn_of(was: bool, now: bool) -> Turn
    ensures { result ≡ turn_of was now }
{
    match (was, now) {
        (false, true) => Turn::Enter,
        (true, false) => Turn::Leave,
        (false, false) | (true, true) => Turn::Stay,
    }
}

impl Phase {
    // 01: a reset that ends a transfer leaves Status 50H.
    fn rest_status(self, status: u8) -> u8
        ensures { result ≡ rest_status self status }
    {
        match self {
            Phase::Idle => status,
            Phase::DataIn(_) | Phase::DataOut(_) => super::IDLE_STATUS,
        }
    }
}

impl State {
    // A reset is entered: the transfer ends, the interrupt mark is cleared.
    fn entered(mut self, phase: Phase) -> State
        ensures { result ≡ entered phase self }
    {
        let registers = self.registers; // copied: without it an access by words takes 2 instructions more
        let status = phase.rest_status(registers.status);
        self.registers.status = status;
        self.interrupt = false;
        self
    }
}

// Two functions for the two resets: with one for both, and what is written stored after it, an access by words took 16 instructions more, one that polls 23.
impl Core {
    #[tactic(auto, unfolding(crate::specs::Resets::option_turned, crate::specs::Resets::buffer_turned, crate::specs::PowerOn::zeros))]
    fn option_turned(self, turn: Turn, value: u8, buffer: &mut Sector) -> Core
        ensures { (result ≡ option_turned turn value self.phase self.state) × (buffer.new ≡ buffer_turned turn buffer.old) }
    {
        let Core { phase, mut state } = self;
        match turn {
            Turn::Enter => {
                let mut held = state.entered(phase);
                held.option = value;
                Core {
                    phase: Phase::Idle,
                    state: held,
                }
            }
            Turn::Leave => {
                *buffer = [0u8; SECTOR_BYTES];
                Core {
                    phase: Phase::Idle,
                    state: state.made.power_on(state.bad, value),
                }
            }
            Turn::Stay => {
                state.option = value;
                Core { phase, state }
            }
        }
    }

    // A write of the Configuration Option Register; row 10 is tested before it (D131).
    pub fn write_option(self, value: u8, buffer: &mut Sector) -> Core
        ensures { (result ≡ option_core value self.phase self.state) × (buffer.new ≡ option_buffer value self.state buffer.old) }
    {
        let turn = turn_of(
            super::states::sreset_in(self.state.option),
            super::states::sreset_in(value),
        );
        self.option_turned(turn, value, buffer)
    }

    #[tactic(auto, unfolding(crate::specs::Resets::control_turned))]
    fn control_turned(self, turn: Turn, masked: bool) -> Core
        ensures { result ≡ control_turned turn masked self.phase self.state }
    {
        let Core { phase, mut state } = self;
        match turn {
            Turn::Enter => {
                let mut held = state.entered(phase);
                held.control = Control { held: true, masked };
                Core {
                    phase: Phase::Idle,
                    state: held,
                }
            }
            Turn::Leave => {
                let mut powered = state.made.power_on(state.bad, state.option);
                powered.control.masked = masked;
                Core {
                    phase: Phase::Idle,
                    state: powered,
                }
            }
            Turn::Stay => {
                state.control.masked = masked;
                Core { phase, state }
            }
        }
    }

    // A write of Device Control.
    pub fn write_control(self, value: u8) -> Core
        ensures { result ≡ control_written value self.phase self.state }
    {
        let held = value / 4 % 2 == 1; // bit 2
        let masked = value / 2 % 2 == 1; // bit 1
        self.control_turned(turn_of(self.state.control.held, held), masked)
    }
}

// What a read of each register gives, and what a write to one leaves, but for Command and Device Control.
ghost use Rattle.std.specs.Prelude.{◌≡◌, ◌<◌};
ghost use Rattle.registers.specs.State.{with_count, with_address};
ghost use Rattle.registers.specs.Values.{head_bits, head_read, writing_bit, drive_bits, drive_address, register_value, value_read, after_read, register_set};

use super::{Core, Phase, State};
use geometry::Address;
use maps::Register;

fn head_bits(value: u8) -> u8
    ensures { (result ≡ head_bits value) × (result < 96) }
{
    value / 64 % 2 * 64 + value % 32
}

// 01: Drive/Head reads with bits 7 and 5 set.
fn head_read(value: u8) -> u8
    ensures { result ≡ head_read value }
{
    0xA0 + head_bits(value)
}

fn drive_bits(head: u8) -> u8
    ensures { (result ≡ drive_bits head) × (result < 3) }
{
    if head / 16 % 2 == 1 { 1 } else { 2 }
}

impl Phase {
    fn writing_bit(self) -> u8
        ensures { (result ≡ writing_bit self) × (result < 65) }
    {
        match self {
            Phase::Idle | Phase::DataIn(_) => 0x40,
            Phase::DataOut(_) => 0,
        }
    }

    fn drive_address(self, head: u8) -> u8
        ensures { result ≡ drive_address self head }
    {
        self.writing_bit() + ((15 - head % 16) * 4 + drive_bits(head))
    }
}

impl Core {
    fn register_value(self, register: Register) -> u8
        ensures { result ≡ register_value register self.phase self.state }
    {
        let registers = self.state.registers;
        match register {
            Register::ErrorFeature => registers.error,
            Register::SectorCount => registers.count,
            Register::SectorNumber => registers.address.sector,
            Register::CylinderLow => registers.address.low,
            Register::CylinderHigh => registers.address.high,
            Register::DriveHead => head_read(registers.address.head),
            Register::StatusCommand | Register::AlternateControl => registers.status,
            Register::DriveAddress => self.phase.drive_address(registers.address.head),
        }
    }

    // The value of a register's read: 80H while Device Control holds the card.
    #[tactic(auto, unfolding(crate::specs::Values::value_read))]
    pub fn value_read(self, register: Register) -> u8
        ensures { result ≡ value_read register self.phase self.state }
    {
        if self.state.control.held {
            super::BUSY_STATUS
        } else {
            self.register_value(register)
        }
    }
}

impl State {
    // 01: reading Status clears the interrupt mark; no other register does (the old model cleared it at Alternate Status too).
    #[tactic(auto, unfolding(crate::specs::Values::after_read))]
    pub fn after_read(mut self, register: Register) -> State
        ensures { result ≡ after_read register self }
    {
        if matches!(register, Register::StatusCommand) {
            self.interrupt = false;
        }
        self
    }

    // Sector Count and the address registers, put back as a whole (D159); of the registers set below no other keeps anything of what is written.
    fn with_place(mut self, count: u8, address: Address) -> State
        ensures { result ≡ with_count count (with_address address self) }
    {
        self.registers.count = count;
        self.registers.address = address;
        self
    }

    // A register is written.
    #[tactic(auto, unfolding(crate::specs::Values::register_set))]
    pub fn register_set(self, register: Register, value: u8) -> State
        ensures { result ≡ register_set register value self }
    {
        let count = self.registers.count;
        let address = self.registers.address;
        match register {
            Register::SectorCount => self.with_place(value, address),
            Register::SectorNumber => self.with_place(
                count,
                Address {
                    sector: value,
                    ..address
                },
            ),
            Register::CylinderLow => self.with_place(
                count,
                Address {
                    low: value,
                    ..address
                },
            ),
            Register::CylinderHigh => self.with_place(
                count,
                Address {
                    high: value,
                    ..address
                },
            ),
            Register::DriveHead => self.with_place(
                count,
                Address {
                    head: head_bits(value),
                    ..address
                },
            ),
            Register::ErrorFeature
            | Register::StatusCommand
            | Register::AlternateControl
            | Register::DriveAddress => self,
        }
    }
}

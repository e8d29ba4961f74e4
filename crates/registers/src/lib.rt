// The card's state without its buffer: registers, geometries, transfer, the two resets, the interrupt mark, the number of bad sectors, the block;
// what is well made; what reading and writing a register does, but for a command.
#![tactic(auto)]

use geometry::{Address, Geometry};
use maps::Mode;

pub mod blocks;
pub mod power_on;
pub mod resets;
pub mod states;
pub mod values;
pub mod well_made;

// 01, "Registers": the values of Status; BSY alone is what a card held by Device Control reads as.
pub const BUSY_STATUS: u8 = 0x80;

pub const IDLE_STATUS: u8 = 0x50;

pub const DATA_STATUS: u8 = 0x58;

pub const ERROR_STATUS: u8 = 0x51;

pub const FAULT_STATUS: u8 = 0x71;

// The bits of Error.
pub const UNC: u8 = 0x40;

pub const IDNF: u8 = 0x10;

pub const ABRT: u8 = 0x04;

// Error after power-on and after 90H.
pub const POWER_ON_ERROR: u8 = 0x01;

// 01, "Data": within a word nothing, the low half or the high half has moved.
#[derive(Clone, Copy)]
pub enum Half {
    Nothing,
    Low,
    High,
}

// 02, "One": how sectors follow each other in blocks. A stride is how many sectors a block has: one for 20H and 30H, the card's block for C4H and C5H.
// A place is how many sectors of the running block have moved.
#[derive(Clone, Copy)]
pub struct Pace {
    pub place: u16,
    pub stride: u16,
}

// What moves: sectors, with how many are left, the present one included, and their pace; or the buffer.
#[derive(Clone, Copy)]
pub enum Load {
    Sectors(u16, Pace),
    Buffer,
}

// The order of the fields here and below is the one of those tried that takes the fewest instructions in a run (bench/); it means nothing else.
#[derive(Clone, Copy)]
pub struct Transfer {
    pub words: u16,
    pub load: Load,
    pub half: Half,
}

#[derive(Clone, Copy)]
pub enum Phase {
    Idle,
    DataIn(Transfer),
    DataOut(Transfer),
}

#[derive(Clone, Copy)]
pub struct Registers {
    pub error: u8,
    pub count: u8,
    pub status: u8,
    pub address: Address,
}

// What the opening fixes.
#[derive(Clone, Copy)]
pub struct Made {
    pub mode: Mode,
    pub default: Geometry,
}

// Device Control: bit 2 holds the card, bit 1 masks the interrupt line.
#[derive(Clone, Copy)]
pub struct Control {
    pub held: bool,
    pub masked: bool,
}

// All of the card but its phase and its buffer.
#[derive(Clone, Copy)]
pub struct State {
    pub code: u8,
    pub current: Geometry,
    pub block: u16, // 02, "One": the sectors of a block, or 0 for none: a number, as the theorems opened_rest and block_rule (laws) say it
    pub interrupt: bool,
    pub control: Control,
    pub made: Made,
    pub bad: u16, // 02, "Eight": the number of marks that are not 0
    pub option: u8,
    pub registers: Registers,
}

// The card without its buffer.
#[derive(Clone, Copy)]
pub struct Core {
    pub phase: Phase,
    pub state: State,
}

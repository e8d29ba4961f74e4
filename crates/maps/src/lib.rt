// 01, "Maps": from space, index, address, width and value to what an access finds, or its refusal.
// Spaces: 0 attribute, 1 memory, 2 I/O, 3 True IDE.
#![tactic(auto)]

pub mod offsets;
pub mod places;
pub mod rows;

// 01, "What is lent": mode 0 and mode 1.
#[derive(Clone, Copy)]
pub enum Mode {
    PcCard,
    TrueIde,
}

// 01: "200H the Configuration Option Register".
pub const OPTION_ADDRESS: u16 = 0x200;

// An access: any space, width, address and value, read or write. Space and width are numbers, since 01 has an answer for each of them.
#[derive(Clone, Copy)]
pub struct Access {
    pub space: u8,
    pub width: u8,
    pub value: u16,
    pub address: u16,
    pub write: bool,
}

// 01, "Maps": the registers that the offsets name; what a register is in a read and in a write stands in one name.
#[derive(Clone, Copy)]
pub enum Register {
    ErrorFeature,
    SectorCount,
    SectorNumber,
    CylinderLow,
    CylinderHigh,
    DriveHead,
    StatusCommand,
    AlternateControl,
    DriveAddress,
}

// The data port: its even place (a byte at offset 0 or 8), its odd place (a byte at 9), or a word (at 0 or 8).
#[derive(Clone, Copy)]
pub enum Port {
    Even,
    Odd,
    Word,
}

// What is read or written: a tuple byte by its number, the Configuration Option Register, a register, or the data port.
#[derive(Clone, Copy)]
pub enum Target {
    Tuple(u8),
    Option,
    Named(Register),
    Data(Port),
}

// What stands at an address: no space that answers, nothing, what is read and written by single bytes, or an even data address, where a word is
// allowed too. The first two are no refusals yet: rows 7 and 6 are tests of a place in `place_table`, by which card's `first-row` goes.
#[derive(Clone, Copy)]
pub enum Place {
    Silent,
    Nothing,
    Bytes(Target),
    EvenData,
}

// Which command each opcode is, the command table, the commands of blocks, and the commands that run over sectors with no data moved.
#![tactic(auto)]

pub mod blocks;
mod opcodes;
pub mod sweeps;
pub mod table;

// The rows of the command table.
#[derive(Clone, Copy)]
pub enum Command {
    // 20H 21H
    Read,
    // 30H 31H
    Write,
    // 40H 41H
    Verify,
    // C0H
    Erase,
    // ECH
    Identify,
    // E4H
    ReadBuffer,
    // E8H
    WriteBuffer,
    // 91H
    SetGeometry,
    // 90H
    Diagnose,
    // 1XH
    Recalibrate,
    // 7XH
    Seek,
    // 03H
    Sense,
    // C6H
    SetMultiple,
    // C4H
    ReadMultiple,
    // C5H
    WriteMultiple,
    // all others
    Other,
}

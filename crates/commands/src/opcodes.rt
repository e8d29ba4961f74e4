// 02, "Two": which command each opcode is. Nothing else decides on an opcode.
ghost use Rattle.std.specs.Prelude.{◌≡◌};
ghost use Rattle.commands.specs.Table.{command_of};
ghost use Rattle.commands.specs.Opcodes.{command_of_class, TableAgrees};

use super::Command;

// The classes: a number each, named by the letter that stands for it in the table; that of "others" is lower case, so that the rest stands out.
// Numbers, and no kinds, by 01, "What form each place takes": "Opcode classes as numbers".
// The words above a class, up to a colon, are the command's name as tools/opcodes and tools/session print it; after the colon stands where the letter is from.

// others
const o: u8 = 0;

// Read Sectors
const R: u8 = 1;

// Write Sectors
const W: u8 = 2;

// Read Verify Sectors
const V: u8 = 3;

// Erase Sectors: Unwritten again
const U: u8 = 4;

// Identify Drive
const I: u8 = 5;

// Read Buffer: Get it
const G: u8 = 6;

// Write Buffer: Put it
const P: u8 = 7;

// Initialize Drive Parameters: initialiZe
const Z: u8 = 8;

// Execute Drive Diagnostic: Test
const T: u8 = 9;

// Recalibrate: recaLibrate
const L: u8 = 10;

// Seek: seeK
const K: u8 = 11;

// Request Sense: reQuest
const Q: u8 = 12;

// Set Multiple: Multiple
const M: u8 = 13;

// Read Multiple: reAd
const A: u8 = 14;

// Write Multiple: writE
const E: u8 = 15;

// The opcode table: the class of each opcode. An opcode's first digit names the row, its second the place in the row.
//   0  1  2  3  4  5  6  7  8  9  A  B  C  D  E  F
const OPCODE_TABLE: [[u8; 16]; 16] = [
    [o, o, o, Q, o, o, o, o, o, o, o, o, o, o, o, o], // 0XH
    [L, L, L, L, L, L, L, L, L, L, L, L, L, L, L, L], // 1XH
    [R, R, o, o, o, o, o, o, o, o, o, o, o, o, o, o], // 2XH
    [W, W, o, o, o, o, o, o, o, o, o, o, o, o, o, o], // 3XH
    [V, V, o, o, o, o, o, o, o, o, o, o, o, o, o, o], // 4XH
    [o, o, o, o, o, o, o, o, o, o, o, o, o, o, o, o], // 5XH
    [o, o, o, o, o, o, o, o, o, o, o, o, o, o, o, o], // 6XH
    [K, K, K, K, K, K, K, K, K, K, K, K, K, K, K, K], // 7XH
    [o, o, o, o, o, o, o, o, o, o, o, o, o, o, o, o], // 8XH
    [T, Z, o, o, o, o, o, o, o, o, o, o, o, o, o, o], // 9XH
    [o, o, o, o, o, o, o, o, o, o, o, o, o, o, o, o], // AXH
    [o, o, o, o, o, o, o, o, o, o, o, o, o, o, o, o], // BXH
    [U, o, o, o, A, E, M, o, o, o, o, o, o, o, o, o], // CXH
    [o, o, o, o, o, o, o, o, o, o, o, o, o, o, o, o], // DXH
    [o, o, o, o, G, o, o, o, P, o, o, o, I, o, o, o], // EXH
    [o, o, o, o, o, o, o, o, o, o, o, o, o, o, o, o], // FXH
];

// 02: "show once, over the whole table, that it agrees with the command list": the promise is that test.
fn opcode_table() -> [[u8; 16]; 16]
    ensures { TableAgrees result }
{
    OPCODE_TABLE
}

// Which command a class means; any other number means "others".
fn command_of_class(class: u8) -> Command
    ensures { result ≡ command_of_class class }
{
    match class {
        R => Command::Read,
        W => Command::Write,
        V => Command::Verify,
        U => Command::Erase,
        I => Command::Identify,
        G => Command::ReadBuffer,
        P => Command::WriteBuffer,
        Z => Command::SetGeometry,
        T => Command::Diagnose,
        L => Command::Recalibrate,
        K => Command::Seek,
        Q => Command::Sense,
        M => Command::SetMultiple,
        A => Command::ReadMultiple,
        E => Command::WriteMultiple,
        _ => Command::Other,
    }
}

// The decision: the row of an opcode in the command table.
pub(crate) fn command_of(opcode: u8) -> Command
    ensures { result ≡ command_of opcode }
{
    let first = (opcode / 16) as usize;
    let second = (opcode % 16) as usize;
    let table = opcode_table();
    command_of_class(table[first][second])
}

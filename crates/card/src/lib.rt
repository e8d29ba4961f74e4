// The card: opening, access and the two resets, by value; what an access means, and what it does.
#![tactic(auto)]

use answers::{Outcome, Refusal};
use ground::Sector;
use maps::{Port, Register};
use registers::{Phase, State};

pub mod access;
pub mod doors;
pub mod opening;
pub mod perform;
pub mod step;

// 01: the card itself goes in and comes back by value.
#[derive(Clone, Copy)]
pub struct Card {
    pub phase: Phase,
    pub state: State,
    pub buffer: Sector,
}

// What an access means. A refusal is one of the meanings, and no Err beside them: the theorems go over lists of meanings, of which each is one step.
#[derive(Clone, Copy)]
pub enum Meaning {
    Refused(Refusal),
    TupleByte(u8),
    ReadOption,
    WriteOption(u8),
    ReadRegister(Register),
    WriteRegister(Register, u8),
    ReadData(Port),
    WriteData(Port, u16),
}

// What rows 12, 2, 3 and 5 say of every access to a card with what is lent to it: no access changes it.
pub type Verdict = Result<(), Refusal>;

// The answer of the doors: the next card is in it.
#[derive(Clone, Copy)]
pub struct Answer {
    pub outcome: Outcome,
    pub line: bool,
    pub card: Card,
}

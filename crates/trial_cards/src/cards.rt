// A card of a row of 35 numbers, and a card with one field set.
ghost use Rattle.std.specs.Prelude.{◌≡◌, ◌%◌, ◌<◌, MatchOption, IfSome};
ghost use Rattle.trial_cards.specs.Cards.{half_of, load_of, pace_of, made_of, registers_of, state_of, phase_with, phase_of, card_from_row, place_of, broken_of};
ghost use Rattle.card.specs.Opening.{zero_card};

use crate::places::*;
use crate::rows::{self, Row};
use card::Card;
use geometry::{Address, Geometry};
use ground::{SECTOR_BYTES, Sector};
use registers::{Control, Half, Load, Made, Pace, Phase, Registers, State, Transfer};

// Functions, no `From` or `TryFrom`: the types are other crates', so those would want a type of this crate around a number or a row, which is no plainer.
// A number above the last stands for the last.
fn half_of(n: u16) -> Half
    ensures { result ≡ half_of n }
{
    match n {
        0 => Half::Nothing,
        1 => Half::Low,
        _ => Half::High,
    }
}

fn load_of(n: u16, left: u16, pace: Pace) -> Load
    ensures { result ≡ load_of n left pace }
{
    match n {
        0 => Load::Buffer,
        _ => Load::Sectors(left, pace),
    }
}

fn phase_with(n: u16, transfer: Transfer) -> Phase
    ensures { result ≡ phase_with n transfer }
{
    match n {
        0 => Phase::Idle,
        1 => Phase::DataIn(transfer),
        _ => Phase::DataOut(transfer),
    }
}

fn low(n: u16) -> u8
    ensures { result ≡ n % 256 }
{
    (n % 256) as u8
}

fn made_of(row: Row) -> Made
    ensures { result ≡ made_of row }
{
    Made {
        mode: card::opening::mode_of(row[MODE]),
        default: Geometry {
            cylinders: row[DEFAULT_CYLINDERS],
            heads: row[DEFAULT_HEADS],
            sectors: row[DEFAULT_SECTORS],
        },
    }
}

fn registers_of(row: Row) -> Registers
    ensures { result ≡ registers_of row }
{
    Registers {
        status: low(row[STATUS]),
        error: low(row[ERROR]),
        count: low(row[COUNT]),
        address: Address {
            sector: low(row[SECTOR]),
            low: low(row[CYLINDER_LOW]),
            high: low(row[CYLINDER_HIGH]),
            head: low(row[HEAD]),
        },
    }
}

fn state_of(row: Row) -> State
    ensures { result ≡ state_of row }
{
    State {
        made: made_of(row),
        current: Geometry {
            cylinders: row[CYLINDERS],
            heads: row[HEADS],
            sectors: row[SECTORS],
        },
        registers: registers_of(row),
        option: (row[SETTING] % 128 + 128 * (row[SRESET] % 2)) as u8,
        control: Control {
            held: row[HELD] % 2 == 1,
            masked: row[MASKED] % 2 == 1,
        },
        interrupt: row[INTERRUPT] % 2 == 1,
        code: low(row[CODE]),
        bad: row[BAD],
        block: row[BLOCK],
    }
}

fn pace_of(row: Row) -> Pace
    ensures { result ≡ pace_of row }
{
    Pace {
        stride: row[STRIDE],
        place: row[PLACE],
    }
}

fn phase_of(row: Row) -> Phase
    ensures { result ≡ phase_of row }
{
    let transfer = Transfer {
        load: load_of(row[LOAD], row[LEFT], pace_of(row)),
        half: half_of(row[HALF]),
        words: row[WORDS],
    };
    phase_with(row[PHASE], transfer)
}

#[tactic(auto, unfolding(crate::specs::Cards::card_from_row))]
fn card_from_row(row: Row, buffer: Sector) -> Card
    ensures { result ≡ card_from_row row buffer }
{
    Card {
        phase: phase_of(row),
        state: state_of(row),
        buffer,
    }
}

// ---- kind 4

// Where the row has a field, if it takes the value: a half word and a phase are at most 2, a mode and what a transfer moves at most 1.
#[tactic(auto, using(crate::proofs::Broken::no_place))]
fn place_of(field: u16, value: u16) -> Option<usize>
    ensures place { MatchOption result (place_of field value ≡ 0) (λ place. place ≡ place_of field value) }
    ensures inside { IfSome result (λ place. place < 35) }
{
    match field {
        0 | 30.. => None,
        1 => Some(DEFAULT_CYLINDERS),
        2 => Some(DEFAULT_HEADS),
        3 => Some(DEFAULT_SECTORS),
        4 => Some(CYLINDERS),
        5 => Some(HEADS),
        6 => Some(SECTORS),
        7 => Some(SETTING),
        8 => Some(SRESET),
        9 => Some(HELD),
        10 => Some(MASKED),
        11 => Some(INTERRUPT),
        12 => Some(STATUS),
        13 => Some(ERROR),
        14 => Some(COUNT),
        15 => Some(SECTOR),
        16 => Some(CYLINDER_LOW),
        17 => Some(CYLINDER_HIGH),
        18 => Some(HEAD),
        19 => Some(CODE),
        20 => (value < 3).then_some(HALF),
        21 => Some(WORDS),
        22 => Some(LEFT),
        23 => (value < 2).then_some(MODE),
        24 => (value < 3).then_some(PHASE),
        25 => (value < 2).then_some(LOAD),
        26 => Some(BAD),
        27 => Some(BLOCK),
        28 => Some(STRIDE),
        29 => Some(PLACE),
    }
}

#[tactic(auto, using(crate::proofs::Broken::unbroken, crate::proofs::Broken::broken_at))]
pub fn broken_of(card: Card, field: u16, value: u16) -> Card
    ensures { result ≡ broken_of card field value }
{
    let mut row = rows::row_of(card);
    if let Some(place) = place_of(field, value) {
        row[place] = value;
    }
    card_from_row(row, card.buffer)
}

// The all-zero card.
#[tactic(auto, unfolding(crate::specs::Cards::card_from_row, registers::specs::PowerOn::zeros))]
pub fn zero() -> Card
    ensures { result ≡ zero_card }
{
    card_from_row([0; 35], [0; SECTOR_BYTES])
}

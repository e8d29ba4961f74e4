// The card value as a row of 35 numbers.
ghost use Rattle.std.specs.Prelude.{◌<◌, ◌≡◌};
ghost use Rattle.trial_cards.specs.Rows.{one_of, with_registers, with_option, with_made, state_row, with_load, with_transfer, with_phase, row_of};

use crate::places::*;
use card::Card;
use registers::{Control, Load, Made, Phase, Registers, State, Transfer};

pub type Row = [u16; 35];

// `u16::from` says it too; what may not change holds this: it is a public function.
pub fn one_of(flag: bool) -> u16
    ensures { (result ≡ one_of flag) × (result < 2) }
{
    u16::from(flag)
}

fn put_registers(row: &mut Row, registers: Registers)
    ensures { row.new ≡ with_registers row.old registers }
{
    row[STATUS] = u16::from(registers.status);
    row[ERROR] = u16::from(registers.error);
    row[COUNT] = u16::from(registers.count);
    row[SECTOR] = u16::from(registers.address.sector);
    row[CYLINDER_LOW] = u16::from(registers.address.low);
    row[CYLINDER_HIGH] = u16::from(registers.address.high);
    row[HEAD] = u16::from(registers.address.head);
}

fn put_option(row: &mut Row, option: u8, control: Control)
    ensures { row.new ≡ with_option row.old option control }
{
    row[OPTION] = u16::from(option);
    row[CONTROL] = 4 * u16::from(control.held) + 2 * u16::from(control.masked);
    row[SETTING] = u16::from(option % 128);
    row[SRESET] = u16::from(option / 128);
    row[HELD] = u16::from(control.held);
    row[MASKED] = u16::from(control.masked);
}

fn put_made(row: &mut Row, made: Made)
    ensures { row.new ≡ with_made row.old made }
{
    row[DEFAULT_CYLINDERS] = made.default.cylinders;
    row[DEFAULT_HEADS] = made.default.heads;
    row[DEFAULT_SECTORS] = made.default.sectors;
    row[MODE] = made.mode as u16;
}

fn state_row(state: State) -> Row
    ensures { result ≡ state_row state }
{
    let mut row = [0; 35];
    row[STRIDE] = 1; // a transfer that becomes one of sectors moves them singly
    put_made(&mut row, state.made);
    row[CODE] = u16::from(state.code);
    row[INTERRUPT] = u16::from(state.interrupt);
    row[CYLINDERS] = state.current.cylinders;
    row[HEADS] = state.current.heads;
    row[SECTORS] = state.current.sectors;
    row[BAD] = state.bad;
    row[BLOCK] = state.block;
    put_registers(&mut row, state.registers);
    put_option(&mut row, state.option, state.control);
    row
}

fn put_load(row: &mut Row, load: Load)
    ensures { row.new ≡ with_load row.old load }
{
    if let Load::Sectors(left, pace) = load {
        row[LEFT] = left;
        row[STRIDE_SHOWN] = pace.stride;
        row[PLACE] = pace.place;
        row[LOAD] = 1;
        row[STRIDE] = pace.stride;
    }
}

fn put_transfer(row: &mut Row, phase: u16, transfer: Transfer)
    ensures { row.new ≡ with_transfer row.old phase transfer }
{
    row[PHASE] = phase;
    row[HALF] = transfer.half as u16;
    row[WORDS] = transfer.words;
    put_load(row, transfer.load);
}

fn put_phase(row: &mut Row, phase: Phase)
    ensures { row.new ≡ with_phase row.old phase }
{
    match phase {
        Phase::Idle => {}
        Phase::DataIn(transfer) => put_transfer(row, 1, transfer),
        Phase::DataOut(transfer) => put_transfer(row, 2, transfer),
    }
}

#[tactic(auto, unfolding(crate::specs::Rows::row_of))]
pub fn row_of(card: Card) -> Row
    ensures { result ≡ row_of card }
{
    let mut row = state_row(card.state);
    put_phase(&mut row, card.phase);
    row
}

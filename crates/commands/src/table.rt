// The command table.
ghost use Rattle.std.specs.Prelude.{◌≡◌};
ghost use Rattle.identify.specs.Words.{identify_bytes};
ghost use Rattle.registers.specs.Machine.{machine};
ghost use Rattle.registers.specs.Blocks.{single};
ghost use Rattle.transfers.specs.declared.Order.TheVariants.{First};
ghost use Rattle.transfers.specs.Steps.{idle, read_sector, ask_sector};
ghost use Rattle.commands.specs.Table.{started, count_of, facts_of, geometry_ended, diagnosed, sought_end, seek_ended, sense_ended, obeyed, command_given};

use super::Command;
use geometry::{Address, BadAddress};
use ground::Sector;
use identify::Facts;
use registers::{Core, Load, State};
use transfers::{End, Order};

// 01: every command but 03H starts with Error and code 0.
fn started(mut state: State) -> State
    ensures { result ≡ started state }
{
    state.registers.error = 0;
    state.code = 0;
    state
}

// 01: Count 0 means 256.
#[tactic(auto, unfolding(crate::specs::Table::count_of))]
fn count_of(state: State) -> u16
    ensures { result ≡ count_of state }
{
    match state.registers.count {
        0 => ground::MOST_COUNT,
        count => u16::from(count),
    }
}

// Once a command: kept out of the loop over the accesses, which is the faster for it.
#[inline(never)]
fn identify(state: State, buffer: &mut Sector)
    ensures { buffer.new ≡ identify_bytes (facts_of state) }
{
    let facts = Facts {
        default: state.made.default,
        current: state.current,
        bad: state.bad,
    };
    facts.identify(buffer);
}

// 91H.
fn set_geometry(mut state: State) -> Core
    ensures { result ≡ geometry_ended state }
{
    let registers = state.registers;
    match geometry::shape::reshape(registers.count, registers.address.head, state.total()) {
        Some(geometry) => {
            state.current = geometry;
            transfers::ends::ended(state, End::Good)
        }
        None => transfers::ends::ended(state, End::BadGeometry),
    }
}

// 90H.
fn diagnosed(mut state: State) -> State
    ensures { result ≡ diagnosed state }
{
    state.registers.error = registers::POWER_ON_ERROR;
    state.registers.count = 1;
    state.registers.address = Address {
        sector: 1,
        low: 0,
        high: 0,
        head: 0,
    };
    state
}

fn sought_end(sought: Result<(), BadAddress>) -> End
    ensures { result ≡ sought_end sought }
{
    match sought {
        Ok(()) => End::Good,
        Err(bad) => End::from(bad),
    }
}

// 7XH.
fn seek(state: State) -> Core
    ensures { result ≡ seek_ended state }
{
    let sought = state.registers.address.seek(state.current, state.total());
    transfers::ends::ended(state, sought_end(sought))
}

// 03H: Error is the last code, which stays.
fn sense(mut state: State) -> Core
    ensures { result ≡ sense_ended state }
{
    state.registers.error = state.code;
    transfers::ends::ended(state, End::Good)
}

// 20H 21H: read sectors.
fn read(state: State, buffer: &mut Sector, store: &[u8], marks: &[u8]) -> Core
    ensures { machine result buffer.new store.now marks.now ≡ read_sector (count_of state) single (idle state buffer.old store.now marks.now) }
{
    let pace = registers::blocks::pace_from(registers::blocks::SINGLE);
    transfers::steps::read_sector(state, count_of(state), pace, buffer, store, marks)
}

// 30H 31H: write.
fn ask(state: State) -> Core
    ensures { result ≡ ask_sector (count_of state) single First state }
{
    let pace = registers::blocks::pace_from(registers::blocks::SINGLE);
    transfers::steps::ask_sector(state, count_of(state), pace, Order::First)
}

// What a command does: a case for each, as the definition goes by cases; a table of functions would want one form for all.
fn obey(
    state: State,
    command: Command,
    buffer: &mut Sector,
    store: &mut [u8],
    marks: &mut [u8],
) -> Core
    ensures { machine result buffer.new store.new marks.new ≡ obeyed command (started state) (idle state buffer.old store.old marks.old) }
{
    let fresh = started(state);
    match command {
        Command::Read => read(fresh, buffer, store, marks),
        Command::Write => ask(fresh),
        Command::Verify => super::sweeps::verify_run(fresh, count_of(fresh), marks),
        Command::Erase => super::sweeps::erase_run(fresh, count_of(fresh), store, marks),
        Command::Identify => {
            identify(fresh, buffer);
            transfers::steps::ready(fresh, Load::Buffer)
        }
        Command::ReadBuffer => transfers::steps::ready(fresh, Load::Buffer),
        Command::WriteBuffer => transfers::steps::asked_for(fresh, Load::Buffer, Order::First),
        Command::SetGeometry => set_geometry(fresh),
        Command::Diagnose => transfers::ends::ended(diagnosed(fresh), End::Good),
        Command::Recalibrate => transfers::ends::ended(fresh, End::Good),
        Command::Seek => seek(fresh),
        Command::Sense => sense(state),
        Command::SetMultiple => super::blocks::set_block(fresh),
        Command::ReadMultiple => super::blocks::read_blocks(
            fresh,
            count_of(fresh),
            buffer,
            store,
            marks,
        ),
        Command::WriteMultiple => super::blocks::ask_blocks(fresh, count_of(fresh)),
        Command::Other => transfers::ends::ended(fresh, End::NoSuchCommand),
    }
}

// A Command write: the transfer is dropped and the interrupt mark cleared, then the command's own effect.
#[tactic(auto, unfolding(crate::specs::Table::command_given))]
pub fn command_given(
    mut state: State,
    opcode: u8,
    buffer: &mut Sector,
    store: &mut [u8],
    marks: &mut [u8],
) -> Core
    ensures { machine result buffer.new store.new marks.new ≡ command_given opcode (idle state buffer.old store.old marks.old) }
{
    state.interrupt = false;
    obey(
        state,
        super::opcodes::command_of(opcode),
        buffer,
        store,
        marks,
    )
}

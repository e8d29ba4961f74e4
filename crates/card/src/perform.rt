// What an access does, once it is known what it means.
ghost use Rattle.std.specs.Prelude.{◌≡◌, true};
ghost use Rattle.ground.specs.Choice.{pick};
ghost use Rattle.registers.specs.State.{runs};
ghost use Rattle.registers.specs.Machine.{machine};
ghost use Rattle.port.specs.Data.{effect};
ghost use Rattle.card.specs.Perform.{plain_core, register_written, register_read, perform};

use super::Meaning;
use ground::Sector;
use maps::Register;
use port::Done;
use registers::{Core, Registers};

// 01: in a Device Control hold "writes to offsets other than E have no effect"; "While DRQ is set, writes to 1..6 and D have no effect".
fn closed(core: Core) -> bool
    ensures { result ≡ pick core.state.control.held true (runs core.phase) }
{
    core.state.control.held || core.phase.runs()
}

#[tactic(auto, using(crate::proofs::Written::by_closed))]
fn plain_registers(core: Core, register: Register, value: u8) -> Registers
    ensures { result ≡ (plain_core register value core).state.registers }
{
    if closed(core) {
        return core.state.registers;
    }
    core.state.register_set(register, value).registers
}

// A write to a register with no rule of its own changes registers alone.
#[tactic(auto, using(crate::proofs::Written::plain_only))]
fn plain_core(mut core: Core, register: Register, value: u8) -> Core
    ensures { result ≡ plain_core register value core }
{
    core.state.registers = plain_registers(core, register, value);
    core
}

#[tactic(auto, unfolding(crate::specs::Perform::register_written, commands::specs::Table::command_given))]
fn command_written(
    core: Core,
    value: u8,
    buffer: &mut Sector,
    store: &mut [u8],
    marks: &mut [u8],
) -> Core
    ensures { machine result buffer.new store.new marks.new ≡ register_written Register.StatusCommand value (machine core buffer.old store.old marks.old) }
{
    let state = core.state; // by itself: handed on as `core.state`, an access by words took 13 instructions more
    if state.control.held {
        return core;
    }
    commands::table::command_given(state, value, buffer, store, marks)
}

// A register is written. Command and Device Control are tested for first, so that what writes any other register is called at one place (D160); as
// one match an access took an instruction more, by words and by bytes.
#[tactic(auto, unfolding(crate::specs::Perform::register_written))]
fn write_register(
    core: Core,
    register: Register,
    value: u8,
    buffer: &mut Sector,
    store: &mut [u8],
    marks: &mut [u8],
) -> Core
    ensures { machine result buffer.new store.new marks.new ≡ register_written register value (machine core buffer.old store.old marks.old) }
{
    if matches!(register, Register::StatusCommand) {
        return command_written(core, value, buffer, store, marks);
    }
    if matches!(register, Register::AlternateControl) {
        return core.write_control(value);
    }
    plain_core(core, register, value)
}

fn read_register(core: Core, register: Register) -> Done
    ensures { result ≡ register_read register core }
{
    let value = core.value_read(register);
    let next = Core {
        state: core.state.after_read(register),
        ..core
    };
    port::accepted(next, u16::from(value))
}

// Each meaning in turn: a case with its data for each, as the definition goes by cases; closures or a dyn would be no plainer.
#[tactic(auto, unfolding(crate::specs::Perform::perform, crate::specs::Perform::option_written))]
pub(crate) fn perform(
    core: Core,
    meaning: Meaning,
    buffer: &mut Sector,
    store: &mut [u8],
    marks: &mut [u8],
) -> Done
    ensures { effect result buffer.new store.new marks.new ≡ perform meaning (machine core buffer.old store.old marks.old) }
{
    match meaning {
        Meaning::Refused(refusal) => port::refused(core, refusal),
        Meaning::TupleByte(byte) => port::accepted(core, u16::from(byte)),
        Meaning::ReadOption => port::accepted(core, u16::from(core.state.option)),
        Meaning::WriteOption(value) => port::accepted(core.write_option(value, buffer), 0),
        Meaning::ReadRegister(register) => read_register(core, register),
        Meaning::WriteRegister(register, value) => {
            let next = write_register(core, register, value, buffer, store, marks);
            port::accepted(next, 0)
        }
        Meaning::ReadData(port) => port::data::read_data(core, port, buffer, store, marks),
        Meaning::WriteData(port, value) => {
            port::data::write_data(core, port, value, buffer, store, marks)
        }
    }
}

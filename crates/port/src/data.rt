// Reads and writes of the data port.
ghost use Rattle.std.specs.Prelude.{◌≡◌};
ghost use Rattle.registers.specs.Machine.{machine};
ghost use Rattle.port.specs.Halves.{take_of};
ghost use Rattle.port.specs.Data.{effect, part_read, absent_value, held_value, data_read, part_written, taken_written, data_written};

use super::{Done, Fill, Part};
use answers::Refusal;
use ground::{LAST_WORD, Sector};
use maps::Port;
use registers::{BUSY_STATUS, Core, Phase, Transfer};

// 01, "Registers": what data words read as while Device Control holds the card.
pub(crate) const BUSY_WORD: u16 = 0x8080;

// A part has gone: the transfer goes on, or its last byte has gone. By itself for each way, as reads lend store and marks to be read and writes to be
// written; with what is left of the transfer from one function for both, an access took 5 instructions more by words, 4 by bytes.
#[tactic(auto, unfolding(crate::specs::Data::word_read))]
fn part_read(
    core: Core,
    transfer: Transfer,
    part: Part,
    fill: Fill,
    buffer: &mut Sector,
    store: &[u8],
    marks: &[u8],
) -> Core
    ensures { machine result buffer.new store.now marks.now ≡ part_read fill part transfer (machine core buffer.old store.now marks.now) }
{
    let next = match fill {
        Fill::Begun => super::halves::halved(transfer, part),
        Fill::Full if transfer.words < LAST_WORD => super::halves::next_word(transfer),
        Fill::Full => return transfers::steps::load_read(
            core.state,
            transfer.load,
            buffer,
            store,
            marks,
        ),
    };
    Core {
        phase: Phase::DataIn(next),
        ..core
    }
}

// Two functions, of this and of the next: one over what a byte and a word give would name neither rule.
fn absent_value(port: Port) -> u16
    ensures { result ≡ absent_value port }
{
    match port {
        Port::Even | Port::Odd => 0xFF,
        Port::Word => 0xFFFF,
    }
}

// 01, "Registers": while Device Control holds the card, reads give 80H, data words 8080H.
fn held_value(port: Port) -> u16
    ensures { result ≡ held_value port }
{
    match port {
        Port::Even | Port::Odd => u16::from(BUSY_STATUS),
        Port::Word => BUSY_WORD,
    }
}

// A read of the data port.
#[tactic(auto, unfolding(crate::specs::Data::data_read))]
pub fn read_data(core: Core, port: Port, buffer: &mut Sector, store: &[u8], marks: &[u8]) -> Done
    ensures { effect result buffer.new store.now marks.now ≡ data_read port (machine core buffer.old store.now marks.now) }
{
    if core.state.control.held {
        return super::accepted(core, held_value(port));
    }
    let Phase::DataIn(transfer) = core.phase else {
        return super::accepted(core, absent_value(port));
    };
    let Some((part, fill)) = super::halves::take_of(transfer.half, port) else {
        return super::refused(core, Refusal::HalfMoved);
    };
    let value = super::halves::part_value(part, transfer.words, buffer);
    let next = part_read(core, transfer, part, fill, buffer, store, marks);
    super::accepted(next, value)
}

// A part has come: the transfer goes on, or its last byte has come.
#[tactic(auto, unfolding(crate::specs::Data::word_written))]
fn part_written(
    core: Core,
    transfer: Transfer,
    part: Part,
    fill: Fill,
    buffer: &Sector,
    store: &mut [u8],
    marks: &mut [u8],
) -> Core
    ensures { machine result buffer.now store.new marks.new ≡ part_written fill part transfer (machine core buffer.now store.old marks.old) }
{
    let next = match fill {
        Fill::Begun => super::halves::halved(transfer, part),
        Fill::Full if transfer.words < LAST_WORD => super::halves::next_word(transfer),
        Fill::Full => return transfers::steps::load_written(
            core.state,
            transfer.load,
            buffer,
            store,
            marks,
        ),
    };
    Core {
        phase: Phase::DataOut(next),
        ..core
    }
}

// A write in a transfer out: the part goes into the buffer at once. By itself: within `write_data` an access by words takes 5 instructions more, a write 8.
fn taken_written(
    core: Core,
    transfer: Transfer,
    port: Port,
    value: u16,
    buffer: &mut Sector,
    store: &mut [u8],
    marks: &mut [u8],
) -> Done
    ensures { effect result buffer.new store.new marks.new ≡ taken_written (take_of transfer.half port) value transfer (machine core buffer.old store.old marks.old) }
{
    match super::halves::take_of(transfer.half, port) {
        None => super::refused(core, Refusal::HalfMoved),
        Some((part, fill)) => {
            super::halves::put_part(part, transfer.words, value, buffer);
            let next = part_written(core, transfer, part, fill, buffer, store, marks);
            super::accepted(next, 0)
        }
    }
}

// A write of the data port.
#[tactic(auto, unfolding(crate::specs::Data::data_written))]
pub fn write_data(
    core: Core,
    port: Port,
    value: u16,
    buffer: &mut Sector,
    store: &mut [u8],
    marks: &mut [u8],
) -> Done
    ensures { effect result buffer.new store.new marks.new ≡ data_written port value (machine core buffer.old store.old marks.old) }
{
    if core.state.control.held {
        return super::accepted(core, 0);
    }
    match core.phase {
        Phase::Idle | Phase::DataIn(_) => super::accepted(core, 0),
        Phase::DataOut(transfer) => taken_written(
            core, transfer, port, value, buffer, store, marks,
        ),
    }
}

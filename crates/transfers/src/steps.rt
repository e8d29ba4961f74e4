// A transfer's start, and what the last byte of a sector does.
ghost use Rattle.std.specs.Prelude.{◌≡◌};
ghost use Rattle.registers.specs.State.{with_bad};
ghost use Rattle.registers.specs.Machine.{machine};
ghost use Rattle.transfers.specs.Steps.{idle, new_transfer, starts_block, interrupt_ready, ready, interrupt_asked, asked_for, sector_done, read_sector, next_read, load_read, ask_sector, next_asked, core_written, load_written};

use super::{End, Order, Stored, Way};
use ground::Sector;
use registers::{Core, Half, Load, Pace, Phase, State, Transfer};

// ---- a transfer's start, and the sector after this one

fn new_transfer(load: Load) -> Transfer
    ensures { result ≡ new_transfer load }
{
    Transfer {
        load,
        half: Half::Nothing,
        words: 0,
    }
}

// 02, "One": whether a sector is the first of its block; the buffer is by itself.
fn starts_block(load: Load) -> bool
    ensures { result ≡ starts_block load }
{
    match load {
        Load::Buffer => true,
        Load::Sectors(_, pace) => pace.place == 0,
    }
}

fn interrupt_ready(load: Load, interrupt: bool) -> bool
    ensures { result ≡ interrupt_ready load interrupt }
{
    starts_block(load) || interrupt
}

// A sector or the buffer is ready to be read.
pub fn ready(mut state: State, load: Load) -> Core
    ensures { result ≡ ready load state }
{
    state.registers.status = registers::DATA_STATUS;
    state.interrupt = interrupt_ready(load, state.interrupt);
    Core {
        phase: Phase::DataIn(new_transfer(load)),
        state,
    }
}

fn interrupt_asked(order: Order, load: Load, interrupt: bool) -> bool
    ensures { result ≡ interrupt_asked order load interrupt }
{
    match order {
        Order::First => interrupt,
        Order::Later => interrupt_ready(load, interrupt),
    }
}

// A sector or the buffer is asked for.
pub fn asked_for(mut state: State, load: Load, order: Order) -> Core
    ensures { result ≡ asked_for load order state }
{
    state.registers.status = registers::DATA_STATUS;
    state.interrupt = interrupt_asked(order, load, state.interrupt);
    Core {
        phase: Phase::DataOut(new_transfer(load)),
        state,
    }
}

// A sector is done, and `left` are still to do.
#[tactic(auto, unfolding(crate::specs::Steps::sector_done))]
pub fn sector_done(mut state: State, left: u16) -> State
    ensures { result ≡ sector_done left state }
{
    state.registers.count = (left % 256) as u8;
    if left != 0 {
        state.registers.address = state.registers.address.next(state.current);
    }
    state
}

// ---- reading

// Buffer, store and marks are lent one by one, here and above: a read lends the last two as `&`, which a struct of three `&mut` would give up. Tried: behind
// `&mut` to such a struct the borrow checker does not cover a read of one field into another; by value, the proof of the second function is left open.

// A sector is to be read: its tests, then its bytes come into the buffer.
#[tactic(auto, unfolding(crate::specs::Steps::read_sector))]
pub fn read_sector(
    state: State,
    left: u16,
    pace: Pace,
    buffer: &mut Sector,
    store: &[u8],
    marks: &[u8],
) -> Core
    ensures { machine result buffer.new store.now marks.now ≡ read_sector left pace (idle state buffer.old store.now marks.now) }
{
    match super::before::sector_test(state, Way::In, marks) {
        Ok(spot) => {
            sectors::sectors::fetch_sector(store, spot.index, buffer);
            ready(state, Load::Sectors(left, pace))
        }
        Err(end) => super::ends::ended(state, end),
    }
}

#[tactic(auto, unfolding(crate::specs::Steps::next_read))]
fn next_read(
    state: State,
    left: u16,
    pace: Pace,
    buffer: &mut Sector,
    store: &[u8],
    marks: &[u8],
) -> Core
    ensures { machine result buffer.new store.now marks.now ≡ next_read left pace (idle state buffer.old store.now marks.now) }
{
    let next = sector_done(state, left);
    if left == 0 {
        super::ends::reading_ended(next)
    } else {
        read_sector(next, left, pace, buffer, store, marks)
    }
}

// The last byte of a sector or of the buffer has gone.
pub fn load_read(state: State, load: Load, buffer: &mut Sector, store: &[u8], marks: &[u8]) -> Core
    ensures { machine result buffer.new store.now marks.now ≡ load_read load (idle state buffer.old store.now marks.now) }
{
    match load {
        Load::Buffer => super::ends::reading_ended(state),
        Load::Sectors(left, pace) => {
            // 0 left, which no well-made card has, counts as none more (D132); so below.
            next_read(
                state,
                left.saturating_sub(1),
                pace.after(),
                buffer,
                store,
                marks,
            )
        },
    }
}

// ---- writing

// A sector is asked for, or its address fails.
#[tactic(auto, unfolding(crate::specs::Steps::ask_sector))]
pub fn ask_sector(state: State, left: u16, pace: Pace, order: Order) -> Core
    ensures { result ≡ ask_sector left pace order state }
{
    match super::before::address_test(state) {
        Ok(_) => asked_for(state, Load::Sectors(left, pace), order),
        Err(end) => super::ends::ended(state, end),
    }
}

#[tactic(auto, unfolding(crate::specs::Steps::next_asked))]
fn next_asked(state: State, left: u16, pace: Pace) -> Core
    ensures { result ≡ next_asked left pace state }
{
    let next = sector_done(state, left);
    // A return: as an if/else it takes 8 instructions an access more by words, 16 more where Status is polled.
    if left == 0 {
        return super::ends::ended(next, End::Good);
    }
    ask_sector(next, left, pace, Order::Later)
}

// With the number of marks that are not 0 as it is once the sector is stored.
fn core_written(mut state: State, stored: Stored, left: u16, pace: Pace) -> Core
    ensures { result ≡ core_written stored.tested left pace (with_bad stored.bad state) }
{
    state.bad = stored.bad;
    match stored.tested {
        Ok(_) => next_asked(state, left, pace),
        Err(end) => super::ends::ended(state, end),
    }
}

// The last byte of a sector or of the buffer has come: the sector is stored, and the next is asked for.
pub fn load_written(
    state: State,
    load: Load,
    buffer: &Sector,
    store: &mut [u8],
    marks: &mut [u8],
) -> Core
    ensures { machine result buffer.now store.new marks.new ≡ load_written load (idle state buffer.now store.old marks.old) }
{
    match load {
        Load::Buffer => super::ends::ended(state, End::Good),
        Load::Sectors(left, pace) => {
            let stored = super::before::sector_stored(state, buffer, store, marks);
            core_written(state, stored, left.saturating_sub(1), pace.after())
        }
    }
}

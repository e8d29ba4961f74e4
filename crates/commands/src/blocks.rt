// 02, "One": Set Multiple (C6H), Read Multiple (C4H) and Write Multiple (C5H).
ghost use Rattle.std.specs.Prelude.{◌≡◌};
ghost use Rattle.registers.specs.Machine.{machine};
ghost use Rattle.transfers.specs.Steps.{idle};
ghost use Rattle.commands.specs.Blocks.{block_set, blocks_read, blocks_asked};

use ground::Sector;
use registers::{Core, State};
use transfers::{End, Order};

// C6H: Count is the block, or refused as a command that the card does not have.
#[tactic(auto, unfolding(crate::specs::Blocks::block_set))]
pub(crate) fn set_block(mut state: State) -> Core
    ensures { result ≡ block_set state }
{
    let count = u16::from(state.registers.count);
    if registers::blocks::block_size(count) {
        state.block = count;
        transfers::ends::ended(state, End::Good)
    } else {
        transfers::ends::ended(state, End::NoSuchCommand)
    }
}

// C4H: as 20H, where there is a block.
#[tactic(auto, unfolding(crate::specs::Blocks::blocks_read))]
pub(crate) fn read_blocks(
    state: State,
    count: u16,
    buffer: &mut Sector,
    store: &[u8],
    marks: &[u8],
) -> Core
    ensures { machine result buffer.new store.now marks.now ≡ blocks_read count (idle state buffer.old store.now marks.now) }
{
    if state.block == registers::blocks::NO_BLOCK {
        return transfers::ends::ended(state, End::NoSuchCommand);
    }
    let pace = registers::blocks::pace_from(state.block);
    transfers::steps::read_sector(state, count, pace, buffer, store, marks)
}

// C5H: as 30H, where there is a block.
#[tactic(auto, unfolding(crate::specs::Blocks::blocks_asked))]
pub(crate) fn ask_blocks(state: State, count: u16) -> Core
    ensures { result ≡ blocks_asked count state }
{
    if state.block == registers::blocks::NO_BLOCK {
        return transfers::ends::ended(state, End::NoSuchCommand);
    }
    let pace = registers::blocks::pace_from(state.block);
    transfers::steps::ask_sector(state, count, pace, Order::First)
}

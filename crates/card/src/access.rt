// What an access means: rows 12, 2, 3, 5, 8, 7, 6, 9, 10 of 01's table, then what stands there.
ghost use Rattle.std.specs.Prelude.{◌≡◌};
ghost use Rattle.card.specs.Access.{asked_with, targeted, held_away, decided, verdict_of};

use super::{Meaning, Verdict};
use answers::Refusal;
use ground::{SECTOR_BYTES, TUPLE_BUFFER_BYTES};
use maps::{Access, Target};
use registers::{Core, State};

fn targeted(target: Target, access: Access, tuples: &[u8]) -> Meaning
    ensures { result ≡ targeted target (asked_with access tuples.now) }
{
    match target {
        Target::Tuple(number) => {
            Meaning::TupleByte(ground::byte_or_zero(tuples, usize::from(number)))
        }
        Target::Option if access.write => Meaning::WriteOption((access.value % 256) as u8),
        Target::Option => Meaning::ReadOption,
        Target::Named(register) if access.write => {
            Meaning::WriteRegister(register, (access.value % 256) as u8)
        }
        Target::Named(register) => Meaning::ReadRegister(register),
        Target::Data(port) if access.write => Meaning::WriteData(port, access.value),
        Target::Data(port) => Meaning::ReadData(port),
    }
}

// 01, row 8: held by SRESET, and the access is not to attribute 200H.
#[tactic(auto, unfolding(crate::specs::Access::held_away))]
fn held_away(option: u8, access: Access) -> bool
    ensures { result ≡ held_away option access }
{
    registers::states::sreset_in(option)
        && (access.space != 0 || access.address != maps::OPTION_ADDRESS)
}

// Rows 8, 7, 6, 9, 10, then what stands there.
#[tactic(auto, using(crate::proofs::Decided::decided_as))]
pub(crate) fn decide(state: State, access: Access, tuples: &[u8]) -> Meaning
    ensures { result ≡ decided state (asked_with access tuples.now) }
{
    if held_away(state.option, access) {
        return Meaning::Refused(Refusal::HeldBySreset);
    }
    let index = registers::states::index_in(state.option);
    match maps::rows::stands_at(state.made.mode, index, access) {
        Ok(target) => targeted(target, access, tuples),
        Err(refusal) => Meaning::Refused(refusal),
    }
}

// Rows 12, 2, 3, 5.
#[tactic(auto, unfolding(crate::specs::Access::verdict_of))]
pub fn verdict_of(core: Core, store: &[u8], marks: &[u8], tuples: &[u8]) -> Verdict
    ensures { result ≡ verdict_of core.phase core.state store.now marks.now tuples.now }
{
    let total = usize::from(core.state.total());
    if !core.well_made() {
        return Err(Refusal::NotWellMade);
    }
    if store.len() != SECTOR_BYTES * total {
        return Err(Refusal::StoreLength);
    }
    if marks.len() != total {
        return Err(Refusal::MarksLength);
    }
    if tuples.len() != TUPLE_BUFFER_BYTES {
        return Err(Refusal::TupleBufferLength);
    }
    Ok(())
}

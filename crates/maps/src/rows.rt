// 01, "Answers", rows 7, 6, 9 and 10, in this order: at each place only those are asked for that can apply there.
ghost use Rattle.std.specs.Prelude.{◌≡◌, false};
ghost use Rattle.ground.specs.Choice.{pick};
ghost use Rattle.maps.specs.Rows.{misfits, above_three, stands_as, stands_at};

use super::{Access, Mode, Place, Port, Target};
use answers::Refusal;

// Row 9: width not 1 or 2; a word anywhere but an even data address; a byte write above 255.
#[tactic(auto, unfolding(crate::specs::Rows::misfits))]
fn misfits(even: bool, access: Access) -> bool
    ensures { result ≡ misfits even access }
{
    match access.width {
        1 => access.write && 255 < access.value,
        2 => !even,
        _ => true,
    }
}

// Row 10: Configuration Option write with index above 3; the index is bits 5..0.
#[tactic(auto, unfolding(crate::specs::Rows::above_three))]
fn above_three(access: Access) -> bool
    ensures { result ≡ above_three access }
{
    access.write && 3 < access.value % 64
}

// What is moved by single bytes, where row 9 does not apply.
fn fitting(target: Target, access: Access) -> Result<Target, Refusal>
    ensures { result ≡ pick (misfits false access) (Err Refusal.WidthOrValue) (Ok target) }
{
    if misfits(false, access) {
        Err(Refusal::WidthOrValue)
    } else {
        Ok(target)
    }
}

// At a place for single bytes: row 6 of a write to the tuples, row 9, and row 10 of the option.
fn byte_at(target: Target, access: Access) -> Result<Target, Refusal>
    ensures { result ≡ stands_as (Place.Bytes target) access }
{
    // An arm for each: with the three alike in one a poll takes 10 instructions more, an access by words 5 less.
    match target {
        Target::Tuple(_) if access.write => Err(Refusal::NoRegister),
        Target::Tuple(_) => fitting(target, access),
        Target::Option => {
            fitting(target, access)?;
            if above_three(access) {
                return Err(Refusal::IndexAboveThree);
            }
            Ok(target)
        }
        Target::Named(_) => fitting(target, access),
        Target::Data(_) => fitting(target, access),
    }
}

// At an even data address: row 9, then a word or the even byte. By way of `fitting` too, an access by bytes takes 2 instructions more.
fn port_at(access: Access) -> Result<Target, Refusal>
    ensures { result ≡ stands_as Place.EvenData access }
{
    if misfits(true, access) {
        Err(Refusal::WidthOrValue)
    } else if access.width == 2 {
        Ok(Target::Data(Port::Word))
    } else {
        Ok(Target::Data(Port::Even))
    }
}

// What an access finds at a place.
fn stands_as(place: Place, access: Access) -> Result<Target, Refusal>
    ensures { result ≡ stands_as place access }
{
    match place {
        Place::Silent => Err(Refusal::SpaceSilent),
        Place::Nothing => Err(Refusal::NoRegister),
        Place::Bytes(target) => byte_at(target, access),
        Place::EvenData => port_at(access),
    }
}

// What an access finds, by the card's mode and the map's index.
#[tactic(auto, unfolding(crate::specs::Rows::stands_at))]
pub fn stands_at(mode: Mode, index: u8, access: Access) -> Result<Target, Refusal>
    ensures { result ≡ stands_at mode index access }
{
    stands_as(super::places::place_at(mode, index, access), access)
}

// What stands at an address, whatever the width and the value of the access. Rows 7 and 6 are looked for in one walk.
ghost use Rattle.std.specs.Prelude.{◌≡◌};
ghost use Rattle.ground.specs.Choice.{pick};
ghost use Rattle.maps.specs.Spaces.{card_answers, io_answers};
ghost use Rattle.maps.specs.Offsets.{io_at};
ghost use Rattle.maps.specs.Places.{attribute_place, offset_place, map_place, place_at};

use super::offsets::{PRIMARY, SECONDARY, TRUE_IDE, contiguous_at, memory_at};
use super::{Access, Mode, Place, Port, Register, Target};

// 01, "Offsets": what stands at an offset; nothing at A, B and C, nor where the map does not list the address.
#[tactic(auto, unfolding(crate::specs::Places::register_place))]
fn register_place(offset: Option<u16>) -> Place
    ensures { result ≡ offset_place offset }
{
    match offset {
        Some(0 | 8) => Place::EvenData,
        Some(9) => Place::Bytes(Target::Data(Port::Odd)),
        Some(1 | 0xD) => Place::Bytes(Target::Named(Register::ErrorFeature)),
        Some(2) => Place::Bytes(Target::Named(Register::SectorCount)),
        Some(3) => Place::Bytes(Target::Named(Register::SectorNumber)),
        Some(4) => Place::Bytes(Target::Named(Register::CylinderLow)),
        Some(5) => Place::Bytes(Target::Named(Register::CylinderHigh)),
        Some(6) => Place::Bytes(Target::Named(Register::DriveHead)),
        Some(7) => Place::Bytes(Target::Named(Register::StatusCommand)),
        Some(0xE) => Place::Bytes(Target::Named(Register::AlternateControl)),
        Some(0xF) => Place::Bytes(Target::Named(Register::DriveAddress)),
        _ => Place::Nothing,
    }
}

// 01: attribute memory: even 000H..1FEH are tuple bytes 0..255; 200H the Configuration Option Register.
#[tactic(auto, unfolding(crate::specs::Places::attribute_place))]
fn attribute_place(address: u16) -> Place
    ensures { result ≡ attribute_place address }
{
    match address {
        0..=0x1FE if address % 2 == 0 => Place::Bytes(Target::Tuple((address / 2) as u8)),
        super::OPTION_ADDRESS => Place::Bytes(Target::Option),
        _ => Place::Nothing,
    }
}

// The I/O maps of index 1 to 3.
#[tactic(auto, unfolding(crate::specs::Offsets::io_at))]
fn io_place(index: u8, address: u16) -> Place
    ensures { result ≡ pick (io_answers index) (offset_place (io_at index address)) Place.Silent }
{
    match index {
        1 => register_place(contiguous_at(address)),
        2 => register_place(PRIMARY.offset_of(address)),
        3 => register_place(SECONDARY.offset_of(address)),
        _ => Place::Silent,
    }
}

// In mode 0.
#[tactic(auto, unfolding(crate::specs::Spaces::card_answers, crate::specs::Places::map_place, crate::specs::Offsets::offset_at))]
fn card_place(space: u8, index: u8, address: u16) -> Place
    ensures { result ≡ pick (card_answers space index) (map_place space index address) Place.Silent }
{
    match space {
        0 => attribute_place(address),
        1 if index == 0 => register_place(memory_at(address)),
        2 => io_place(index, address),
        _ => Place::Silent,
    }
}

// By mode and index.
#[tactic(auto, unfolding(crate::specs::Places::place_at, crate::specs::Places::map_place, crate::specs::Spaces::answers_at, crate::specs::Offsets::offset_at))]
pub(crate) fn place_at(mode: Mode, index: u8, access: Access) -> Place
    ensures { result ≡ place_at mode index access }
{
    match mode {
        Mode::PcCard => card_place(access.space, index, access.address),
        Mode::TrueIde if access.space == 3 => register_place(TRUE_IDE.offset_of(access.address)),
        Mode::TrueIde => Place::Silent,
    }
}

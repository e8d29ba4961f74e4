// 01, "Maps": the offset of an address in its map, or none where the map does not list the address.
ghost use Rattle.std.specs.Prelude.{◌≡◌};
ghost use Rattle.maps.specs.Offsets.{window_at, memory_at, contiguous_at};

// Index 0, memory.
#[tactic(auto, unfolding(crate::specs::Offsets::memory_at))]
pub(crate) fn memory_at(address: u16) -> Option<u16>
    ensures { result ≡ memory_at address }
{
    match address {
        0..=0x3FF => Some(address % 16),
        0x400..=0x7FF => Some(8 + address % 2),
        _ => None,
    }
}

// Index 1, I/O.
#[tactic(auto, unfolding(crate::specs::Offsets::contiguous_at))]
pub(crate) fn contiguous_at(address: u16) -> Option<u16>
    ensures { result ≡ contiguous_at address }
{
    match address {
        0..=0x7FF => Some(address % 16),
        _ => None,
    }
}

// A map of ten addresses.
#[derive(Clone, Copy)]
pub(crate) struct Window {
    first: u16,
    last: u16,
    alternate: u16,
    drive: u16,
}

// True IDE.
pub(crate) const TRUE_IDE: Window = Window {
    first: 0x00,
    last: 0x07,
    alternate: 0x16,
    drive: 0x17,
};

// Index 2, I/O.
pub(crate) const PRIMARY: Window = Window {
    first: 0x1F0,
    last: 0x1F7,
    alternate: 0x3F6,
    drive: 0x3F7,
};

// Index 3, I/O.
pub(crate) const SECONDARY: Window = Window {
    first: 0x170,
    last: 0x177,
    alternate: 0x376,
    drive: 0x377,
};

impl Window {
    // Offsets 0 to 7 from the first address on, then E and F.
    #[tactic(auto, unfolding(crate::specs::Offsets::window_at))]
    pub(crate) fn offset_of(self, address: u16) -> Option<u16>
        ensures { result ≡ window_at self.first self.last self.alternate self.drive address }
    {
        // Early returns: as one chain of `else if` an access by words takes 3 instructions more.
        if (self.first..=self.last).contains(&address) {
            return Some(address - self.first);
        }
        if address == self.alternate {
            return Some(0xE);
        }
        if address == self.drive {
            return Some(0xF);
        }
        None
    }
}

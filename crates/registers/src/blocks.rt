// 02, "One": blocks of several sectors.
ghost use Rattle.std.specs.Prelude.{◌≡◌};
ghost use Rattle.registers.specs.Blocks.{block_size, pace_from, place_after, pace_after};

use super::Pace;

// What a card has before the first good C6H.
pub const NO_BLOCK: u16 = 0;

// The stride of 20H and 30H.
pub const SINGLE: u16 = 1;

// 1, 2, 4, 8 or 16 sectors.
#[tactic(auto, unfolding(crate::specs::Blocks::block_size))]
pub fn block_size(n: u16) -> bool
    ensures { result ≡ block_size n }
{
    matches!(n, 1 | 2 | 4 | 8 | 16)
}

// The pace of a command's first sector.
pub fn pace_from(stride: u16) -> Pace
    ensures { result ≡ pace_from stride }
{
    Pace { stride, place: 0 }
}

#[tactic(auto, unfolding(crate::specs::Blocks::place_after))]
fn place_after(stride: u16, place: u16) -> u16
    ensures { result ≡ place_after stride place }
{
    let next = place.saturating_add(1); // 65,535 stays, and is below no stride
    if next < stride { next } else { 0 }
}

impl Pace {
    // Of the next sector: the block goes on, or it was its last one.
    pub fn after(self) -> Pace
        ensures { result ≡ pace_after self }
    {
        Pace {
            stride: self.stride,
            place: place_after(self.stride, self.place),
        }
    }
}

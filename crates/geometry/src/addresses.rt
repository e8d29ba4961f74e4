// The sector that the address registers name and how many remain from there, or the test that failed; and 7XH's test.
ghost use Rattle.std.specs.Prelude.{◌≡◌, ◌<◌, ◌≤◌};
ghost use Rattle.geometry.specs.Limits.{capacity_of};
ghost use Rattle.geometry.specs.Address.{by_lba, head_of, cylinder_of, lba_of, spot_at, locate_chs, locate_lba, locate, seek};

use super::{Address, BadAddress, Geometry, Spot};

impl Address {
    // 01, "Registers": bit 6 selects LBA.
    #[tactic(auto, unfolding(crate::specs::Address::by_lba))]
    pub(crate) fn by_lba(self) -> bool
        ensures { result ≡ by_lba self }
    {
        // By division, as every bit (D127): as `& 0x40 != 0` the proof doesn't close.
        self.head / 64 % 2 == 1
    }

    pub(crate) fn head_number(self) -> usize
        ensures { (result ≡ head_of self) × (result < 16) }
    {
        (self.head as usize) % 16
    }

    pub(crate) fn cylinder(self) -> usize
        ensures { (result ≡ cylinder_of self) × (result < 65536) }
    {
        u16::from_le_bytes([self.low, self.high]) as usize
    }

    pub(crate) fn lba(self) -> usize
        ensures { (result ≡ lba_of self) × (result < 268435456) }
    {
        u32::from_be_bytes([self.head % 16, self.high, self.low, self.sector]) as usize
    }
}

// A good address: where its sector stands, and how many remain from there.
fn good_at(index: usize, room: usize) -> Spot
    requires { index < room }
    ensures { result ≡ spot_at room index }
{
    Spot {
        index,
        remain: room - index,
    }
}

#[tactic(auto, unfolding(crate::specs::Address::locate_chs, ground::specs::Choice::every))]
fn locate_chs(
    cylinder: usize,
    head: usize,
    sector: usize,
    current: Geometry,
    room: usize,
) -> Result<Spot, BadAddress>
    requires { (cylinder < 65536) × (head < 16) × (sector < 256) × (capacity_of current ≤ room) }
    ensures { result ≡ locate_chs cylinder head sector current room }
{
    let heads = current.heads as usize;
    let sectors = current.sectors as usize;
    if heads <= head || sector < 1 || sectors < sector {
        return Err(BadAddress::HeadOrSector);
    }
    if current.cylinders as usize <= cylinder {
        return Err(BadAddress::Cylinder);
    }
    let index = (cylinder * heads + head) * sectors + sector - 1;
    Ok(good_at(index, room))
}

#[tactic(auto, unfolding(crate::specs::Address::locate_lba))]
fn locate_lba(lba: usize, room: usize) -> Result<Spot, BadAddress>
    ensures { result ≡ locate_lba lba room }
{
    if lba < room {
        Ok(good_at(lba, room))
    } else {
        Err(BadAddress::Lba)
    }
}

impl Address {
    // The sector that the registers name and how many remain from there, or the test that failed.
    #[tactic(auto, unfolding(crate::specs::Address::locate, crate::specs::Address::room_of))]
    pub fn locate(self, current: Geometry, total: u16) -> Result<Spot, BadAddress>
        ensures { result ≡ locate self current total }
    {
        if self.by_lba() {
            locate_lba(self.lba(), total as usize)
        } else {
            locate_chs(
                self.cylinder(),
                self.head_number(),
                self.sector as usize,
                current,
                current.capacity(),
            )
        }
    }

    // 7XH.
    #[tactic(auto, unfolding(crate::specs::Address::seek, crate::specs::Address::locate_lba))]
    pub fn seek(self, current: Geometry, total: u16) -> Result<(), BadAddress>
        ensures { result ≡ seek self current total }
    {
        if self.by_lba() {
            locate_lba(self.lba(), total as usize)?;
        } else if current.heads as usize <= self.head_number() {
            return Err(BadAddress::HeadOrSector);
        } else if current.cylinders as usize <= self.cylinder() {
            return Err(BadAddress::Cylinder);
        }
        Ok(())
    }
}

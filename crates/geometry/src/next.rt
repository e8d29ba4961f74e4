// The address of the sector after this one.
ghost use Rattle.std.specs.Prelude.{◌≡◌, ◌+◌, ◌*◌, ◌/◌, ◌%◌};
ghost use Rattle.geometry.specs.Next.{at_chs, at_lba, next_chs, next_of};

use super::{Address, Geometry};

impl Address {
    // The registers with these bytes; of the head its low nibble, for bits 7..4 stay.
    fn with(self, head: u8, high: u8, low: u8, sector: u8) -> Address
        ensures { result ≡ record { sector = sector; low = low; high = high; head = self.head / 16 * 16 + head % 16 } }
    {
        Address {
            sector,
            low,
            high,
            head: self.head / 16 * 16 + head % 16,
        }
    }

    fn at_chs(self, cylinder: usize, head: usize, sector: usize) -> Address
        ensures { result ≡ at_chs self cylinder head sector }
    {
        let [low, high, ..] = cylinder.to_le_bytes();
        self.with((head % 16) as u8, high, low, (sector % 256) as u8)
    }

    #[tactic(auto, unfolding(crate::specs::Next::next_chs))]
    fn next_chs(self, current: Geometry) -> Address
        ensures { result ≡ next_chs self current }
    {
        let sector = self.sector as usize;
        let head = self.head_number();
        let cylinder = self.cylinder();
        if sector < current.sectors as usize {
            self.at_chs(cylinder, head, sector + 1)
        } else if head + 1 < current.heads as usize {
            self.at_chs(cylinder, head + 1, 1)
        } else {
            self.at_chs(cylinder + 1, 0, 1)
        }
    }

    fn at_lba(self, lba: usize) -> Address
        ensures { result ≡ at_lba self lba }
    {
        let [sector, low, high, head, ..] = lba.to_le_bytes();
        self.with(head, high, low, sector)
    }

    // The address of the sector after this one. Once a sector: kept out of the loop over the accesses, which is the faster for it.
    #[inline(never)]
    #[tactic(auto, unfolding(crate::specs::Next::next_of))]
    pub fn next(self, current: Geometry) -> Address
        ensures { result ≡ next_of self current }
    {
        if self.by_lba() {
            self.at_lba(self.lba() + 1)
        } else {
            self.next_chs(current)
        }
    }
}

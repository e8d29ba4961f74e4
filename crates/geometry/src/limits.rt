// The limits of a geometry, its number of sectors, and what a current geometry must be.
ghost use Rattle.std.specs.Prelude.{◌≡◌};
ghost use Rattle.geometry.specs.Limits.{capacity_of, shape_fits, fits, total_of, current_for};

use super::Geometry;

impl Geometry {
    // C·H·S, of any 16-bit numbers.
    pub fn capacity(self) -> usize
        ensures { result ≡ capacity_of self }
    {
        (self.cylinders as usize) * (self.heads as usize) * (self.sectors as usize)
    }

    // H 1..16 and S 1..255.
    #[tactic(auto, unfolding(ground::specs::Choice::every))]
    fn shape_fits(self) -> bool
        ensures { result ≡ shape_fits self }
    {
        (1..=16).contains(&self.heads) && (1..=255).contains(&self.sectors)
    }

    #[tactic(auto, unfolding(crate::specs::Limits::fits, ground::specs::Choice::every))]
    pub fn fits(self) -> bool
        ensures { result ≡ fits self }
    {
        1 <= self.cylinders && self.shape_fits() && self.capacity() <= 65535
    }

    // Once a sector at most: kept out of the loop over the accesses, which is the faster for it.
    #[inline(never)]
    #[tactic(auto, unfolding(crate::specs::Limits::total_of), using(crate::proofs::LimitFacts::fits_facts))]
    pub fn total(self) -> u16
        ensures { result ≡ total_of self }
    {
        if self.fits() {
            self.capacity() as u16
        } else {
            0
        }
    }

    #[tactic(auto, unfolding(crate::specs::Limits::current_for, ground::specs::Choice::every), using(crate::proofs::Bounds::product_most, crate::proofs::Bounds::product_positive))]
    pub fn current_for(self, total: u16) -> bool
        ensures { result ≡ current_for self total }
    {
        self.shape_fits()
            && 1 <= self.cylinders
            && self.cylinders == total / (self.heads * self.sectors)
    }
}

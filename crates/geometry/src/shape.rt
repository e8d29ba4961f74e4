// 91H.
ghost use Rattle.std.specs.Prelude.{◌≡◌};
ghost use Rattle.geometry.specs.Shape.{reshaped};

use super::Geometry;

// 91H: the new geometry, if it is not refused, from Sector Count and Drive/Head, for a card of `total` sectors.
#[tactic(auto, unfolding(crate::specs::Shape::reshaped))]
pub fn reshape(count: u8, head: u8, total: u16) -> Option<Geometry>
    ensures { result ≡ reshaped count head total }
{
    let sectors = count as u16;
    let heads = (head % 16) as u16 + 1;
    if sectors == 0 || total < heads * sectors {
        return None;
    }
    Some(Geometry {
        cylinders: total / (heads * sectors),
        heads,
        sectors,
    })
}

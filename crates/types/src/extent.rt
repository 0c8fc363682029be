// The size of a texture, and how many levels such a size can have.
ghost use Rattle.std.specs.Prelude.{◌≡◌, ◌≤◌};
ghost use Rattle.types.specs.Extent.{max_mips, binary_digits, DigitsUpTo16};

use crate::dimension::TextureDimension;

// Levels that the host takes at the most.
pub const MAX_MIP_LEVELS: u32 = 16;

#[derive(Clone, Copy, Debug, PartialEq, Eq)]
pub struct Extent3d {
    pub width: u32,
    pub height: u32,
    pub depth_or_array_layers: u32,
}

impl Extent3d {
    // The greatest level count of a texture of this size.
    pub fn max_mips(self, dimension: TextureDimension) -> u32
        ensures value { result ≡ max_mips self dimension }
        ensures bound { result ≤ 16 }
        ensures digits { DigitsUpTo16 self dimension result }
    {
        match dimension {
            TextureDimension::D1 => 1,
            TextureDimension::D2 => binary_digits(self.width.max(self.height)).min(MAX_MIP_LEVELS),
            TextureDimension::D3 => {
                let largest = self.width.max(self.height).max(self.depth_or_array_layers);
                binary_digits(largest).min(MAX_MIP_LEVELS)
            }
        }
    }
}

fn binary_digits(n: u32) -> u32
    ensures { result ≡ binary_digits n }
{
    32 - n.leading_zeros()
}

// Questions about a texture, answered from what is kept of it.
ghost use Rattle.std.specs.Prelude.{◌≡◌};
ghost use Rattle.types.specs.Textures.{layers_of, render_extent_of, side_at};

use crate::dimension::TextureDimension;
use crate::extent::Extent3d;
use crate::texture::Texture;

impl Texture {
    // The third size counts layers in 2D alone.
    pub fn array_layer_count(&self) -> u32
        ensures { result ≡ layers_of self.now }
    {
        match self.dimension {
            TextureDimension::D2 => self.size.depth_or_array_layers,
            TextureDimension::D1 | TextureDimension::D3 => 1,
        }
    }

    // How large one layer of a level is when it is rendered to. The second plane has half the width and half the height.
    pub fn compute_render_extent(&self, mip_level: u32, plane: Option<u32>) -> Extent3d
        ensures { result ≡ render_extent_of self.now.size mip_level plane }
    {
        let width = level_side(self.size.width, mip_level);
        let height = level_side(self.size.height, mip_level);
        if plane == Some(1) {
            Extent3d {
                width: width / 2,
                height: height / 2,
                depth_or_array_layers: 1,
            }
        } else {
            Extent3d {
                width,
                height,
                depth_or_array_layers: 1,
            }
        }
    }
}

// A side at a level: each level halves it, and no level is without a texel.
fn level_side(side: u32, level: u32) -> u32
    ensures { result ≡ side_at side level }
{
    if level < u32::BITS {
        (side >> level).max(1)
    } else {
        1
    }
}

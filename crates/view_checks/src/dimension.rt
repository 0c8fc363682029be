// The dimension of a view: what it asks of the texture and of the layers.
ghost use Rattle.std.specs.Prelude.{◌≡◌};
ghost use Rattle.checks.specs.Check.{outcome};
ghost use Rattle.view_checks.specs.Checks.{can_be_multisampled, dimension_checks, has_one_layer};

use crate::error::CreateTextureViewError;
use crate::resolve::ResolvedView;
use types::bits::BitSet;
use types::dimension::TextureViewDimension;
use types::features::Features;
use types::texture::Texture;

pub(crate) fn check_dimension(
    features: Features,
    texture: &Texture,
    view: &ResolvedView,
) -> Result<(), CreateTextureViewError>
    ensures { result ≡ outcome (dimension_checks features.0 texture.now view.now) }
{
    let dim = view.dimension;
    let layers = view.array_layer_count;
    let is_cube = dim == TextureViewDimension::Cube;
    let is_cube_array = dim == TextureViewDimension::CubeArray;
    if texture.sample_count > 1 && !can_be_multisampled(features, dim) {
        return Err(CreateTextureViewError::InvalidMultisampledTextureViewDimension(dim));
    }
    if texture.dimension != dim.compatible_texture_dimension() {
        return Err(CreateTextureViewError::InvalidTextureViewDimension {
            view: dim,
            texture: texture.dimension,
        });
    }
    if has_one_layer(dim) && layers != 1 {
        return Err(CreateTextureViewError::InvalidArrayLayerCount {
            requested: layers,
            dim,
        });
    }
    if is_cube && layers != 6 {
        return Err(CreateTextureViewError::InvalidCubemapTextureDepth { depth: layers });
    }
    if is_cube_array && !layers.is_multiple_of(6) {
        return Err(CreateTextureViewError::InvalidCubemapArrayTextureDepth { depth: layers });
    }
    if (is_cube || is_cube_array) && texture.size.width != texture.size.height {
        return Err(CreateTextureViewError::InvalidCubeTextureViewSize);
    }
    Ok(())
}

// A texture of several samples is viewed as one image, or as an array where the device has such textures.
fn can_be_multisampled(features: Features, dim: TextureViewDimension) -> bool
    ensures { result ≡ can_be_multisampled features.0 dim }
{
    match dim {
        TextureViewDimension::D2 => true,
        TextureViewDimension::D2Array => features.contains(Features::MULTISAMPLE_ARRAY),
        _ => false,
    }
}

fn has_one_layer(dim: TextureViewDimension) -> bool
    ensures { result ≡ has_one_layer dim }
{
    matches!(
        dim,
        TextureViewDimension::D1 | TextureViewDimension::D2 | TextureViewDimension::D3
    )
}

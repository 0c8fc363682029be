// What only some dimensions allow.
ghost use Rattle.std.specs.Prelude.{◌≡◌};
ghost use Rattle.checks.specs.Check.{outcome};
ghost use Rattle.checks.specs.Checks.{dimension_checks};

use crate::error::CreateTextureError;
use types::bits::BitSet;
use types::descriptor::TextureDescriptor;
use types::dimension::TextureDimension;
use types::usages::TextureUsages;

pub(crate) fn check_dimension(desc: &TextureDescriptor) -> Result<(), CreateTextureError>
    ensures { result ≡ outcome (dimension_checks desc.now) }
{
    let dimension = desc.dimension;
    let is_1d = dimension == TextureDimension::D1;
    let is_2d = dimension == TextureDimension::D2;
    if !is_2d && desc.format.is_depth_stencil_format() {
        return Err(CreateTextureError::InvalidDepthDimension(dimension, desc.format));
    }
    if !is_2d && desc.usage.contains(TextureUsages::TRANSIENT_ATTACHMENT) {
        return Err(CreateTextureError::InvalidDimensionUsages(
            TextureUsages::TRANSIENT_ATTACHMENT,
            dimension,
        ));
    }
    if is_1d && desc.format.is_compressed() {
        return Err(CreateTextureError::InvalidCompressedDimension(dimension, desc.format));
    }
    if is_1d && desc.usage.contains(TextureUsages::RENDER_ATTACHMENT) {
        return Err(CreateTextureError::InvalidDimensionUsages(
            TextureUsages::RENDER_ATTACHMENT,
            dimension,
        ));
    }
    Ok(())
}

// What compressed formats ask of the size, and of the device where they are 3D.
ghost use Rattle.std.specs.Prelude.{◌≡◌};
ghost use Rattle.checks.specs.Check.{outcome};
ghost use Rattle.checks.specs.Checks.{block_checks, sliced_checks, feature_checks};

use crate::error::{CreateTextureError, TextureDimensionError};
use types::descriptor::TextureDescriptor;
use types::dimension::TextureDimension;
use types::features::{Features, require_features};
use types::format::TextureFormat;

pub(crate) fn check_blocks(desc: &TextureDescriptor) -> Result<(), CreateTextureError>
    ensures { result ≡ outcome (block_checks desc.now) }
{
    let format = desc.format;
    let width = desc.size.width;
    let height = desc.size.height;
    let (block_width, block_height) = format.block_dimensions();
    if format.is_compressed() && !width.is_multiple_of(block_width) {
        return Err(TextureDimensionError::NotMultipleOfBlockWidth {
            width,
            block_width,
            format,
        }
        .into());
    }
    if format.is_compressed() && !height.is_multiple_of(block_height) {
        return Err(TextureDimensionError::NotMultipleOfBlockHeight {
            height,
            block_height,
            format,
        }
        .into());
    }
    Ok(())
}

// A compressed format can be 3D only where the device slices it.
pub(crate) fn check_sliced_3d(
    features: Features,
    desc: &TextureDescriptor,
) -> Result<(), CreateTextureError>
    ensures { result ≡ outcome (sliced_checks features.0 desc.now) }
{
    let format = desc.format;
    if desc.dimension != TextureDimension::D3 || !format.is_compressed() {
        return Ok(());
    }
    if format.is_bcn() {
        require_sliced(features, format, Features::TEXTURE_COMPRESSION_BC_SLICED_3D)
    } else if format.is_astc() {
        require_sliced(
            features,
            format,
            Features::TEXTURE_COMPRESSION_ASTC_SLICED_3D,
        )
    } else {
        Err(CreateTextureError::InvalidCompressedDimension(desc.dimension, format))
    }
}

fn require_sliced(
    features: Features,
    format: TextureFormat,
    sliced: Features,
) -> Result<(), CreateTextureError>
    ensures { result ≡ outcome (feature_checks features.0 format sliced.0) }
{
    require_features(features, sliced).map_err(|missing| CreateTextureError::MissingFeatures(
        format, missing,
    ))
}

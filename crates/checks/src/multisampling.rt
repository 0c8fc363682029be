// What more than one sample asks of a texture.
ghost use Rattle.std.specs.Prelude.{◌≡◌};
ghost use Rattle.checks.specs.Check.{outcome};
ghost use Rattle.checks.specs.Checks.{multisample_checks};

use crate::error::{CreateTextureError, TextureDimensionError};
use types::bits::BitSet;
use types::descriptor::TextureDescriptor;
use types::features::Features;
use types::format_features::TextureFormatFeatureFlags as Flags;
use types::usages::TextureUsages;

const MULTISAMPLED: Flags = Flags(
    Flags::MULTISAMPLE_X2.0
        | Flags::MULTISAMPLE_X4.0
        | Flags::MULTISAMPLE_X8.0
        | Flags::MULTISAMPLE_X16.0,
);

pub(crate) fn check_multisampling(
    features: Features,
    flags: Flags,
    desc: &TextureDescriptor,
) -> Result<(), CreateTextureError>
    ensures { result ≡ outcome (multisample_checks features.0 flags.0 desc.now) }
{
    let samples = desc.sample_count;
    let layers = desc.size.depth_or_array_layers;
    if samples <= 1 {
        return Ok(());
    }
    if desc.mip_level_count != 1 {
        return Err(CreateTextureError::InvalidMipLevelCount {
            requested: desc.mip_level_count,
            maximum: 1,
        });
    }
    if layers != 1 && !features.contains(Features::MULTISAMPLE_ARRAY) {
        return Err(TextureDimensionError::MultisampledDepthOrArrayLayer(layers).into());
    }
    if desc.usage.contains(TextureUsages::STORAGE_BINDING) {
        return Err(CreateTextureError::InvalidMultisampledStorageBinding);
    }
    if !desc.usage.contains(TextureUsages::RENDER_ATTACHMENT) {
        return Err(CreateTextureError::MultisampledNotRenderAttachment);
    }
    if !flags.intersects(MULTISAMPLED) {
        return Err(CreateTextureError::InvalidMultisampledFormat(desc.format));
    }
    if !flags.sample_count_supported(samples) {
        let supported = flags.supported_sample_counts();
        return Err(CreateTextureError::InvalidSampleCount(samples, desc.format, supported));
    }
    Ok(())
}

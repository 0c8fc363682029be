// The usage against what the format allows.
ghost use Rattle.std.specs.Prelude.{◌≡◌};
ghost use Rattle.checks.specs.Check.{outcome};
ghost use Rattle.checks.specs.Checks.{format_usage_checks, allowed_usages_of};

use crate::error::CreateTextureError;
use types::bits::BitSet;
use types::descriptor::TextureDescriptor;
use types::features::Features;
use types::format::TextureFormat;
use types::usages::TextureUsages;

pub(crate) fn check_format_usage(
    features: Features,
    desc: &TextureDescriptor,
) -> Result<(), CreateTextureError>
    ensures { result ≡ outcome (format_usage_checks features.0 desc.now) }
{
    let missing = desc.usage.difference(allowed_usages(features, desc.format));
    if !missing.is_empty() {
        let guaranteed = desc.format.guaranteed_format_features(features);
        let webgpu_allows = desc.usage.difference(guaranteed.allowed_usages).is_empty();
        return Err(CreateTextureError::InvalidFormatUsages(missing, desc.format, webgpu_allows));
    }
    Ok(())
}

// A planar format is used plane by plane, so it allows what both planes allow.
fn allowed_usages(features: Features, format: TextureFormat) -> TextureUsages
    ensures { result.0 ≡ allowed_usages_of features.0 format }
{
    if format.is_multi_planar_format() {
        let plane_0 = TextureFormat::R8Unorm.guaranteed_format_features(features);
        let plane_1 = TextureFormat::Rg8Unorm.guaranteed_format_features(features);
        plane_0.allowed_usages.intersection(plane_1.allowed_usages)
    } else {
        format.guaranteed_format_features(features).allowed_usages
    }
}

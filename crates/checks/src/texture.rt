// The checks of a texture request, one group after the other: the first refusal is the answer. A group takes the records
// that it reads, and the features only where it asks for one, so that its signature says what its refusals can depend on.
ghost use Rattle.std.specs.Prelude.{◌≡◌, ◌↔◌, not, IsTrue};
ghost use Rattle.checks.specs.Check.{outcome, answered};
ghost use Rattle.checks.specs.Checks.{feature_checks, shape_checks, mip_checks, format_checks, create_checks, is_twin_listed};
ghost use Rattle.checks.specs.Refusals.{refused_by};
ghost use Rattle.types.specs.Formats.{guaranteed_features, required_features_of};
ghost use Rattle.checks.specs.WebGpu.{Accepts, WebGpuDevice};

use crate::blocks::{check_blocks, check_sliced_3d};
use crate::dimension::check_dimension;
use crate::error::CreateTextureError;
use crate::format_usage::check_format_usage;
use crate::levels::check_levels;
use crate::multisampling::check_multisampling;
use crate::size::check_texture_dimension_size;
use crate::transient::check_transient;
use crate::usage::check_usage;
use crate::view_formats::check_view_formats;
use types::capabilities::Capabilities;
use types::descriptor::TextureDescriptor;
use types::features::Features;
use types::format::TextureFormat;
use types::format_features::TextureFormatFeatures;
use types::format_info::describe_format_features;

// Whether the format's twin is among the view formats of a request that passes every check.
pub fn check_texture_descriptor(
    device: &Capabilities,
    desc: &TextureDescriptor,
) -> Result<bool, CreateTextureError>
    ensures value { result ≡ answered (create_checks device.now desc.now) (is_twin_listed desc.now.format desc.now.view_formats.now) }
    ensures webgpu { WebGpuDevice device.now → IsTrue (not (refused_by 3 27 result)) ↔ Accepts device.now desc.now }
{
    check_shape(device, desc)?;
    check_mips(desc)?;
    check_format(device.features, desc)?;
    check_view_formats(device.downlevel_flags, desc.format, desc.view_formats)
}

fn check_shape(device: &Capabilities, desc: &TextureDescriptor) -> Result<(), CreateTextureError>
    ensures { result ≡ outcome (shape_checks device.now desc.now) }
{
    check_usage(desc.usage)?;
    check_texture_dimension_size(desc.dimension, desc.size, desc.sample_count, &device.limits)?;
    check_dimension(desc)?;
    check_blocks(desc)?;
    check_sliced_3d(device.features, desc)
}

fn check_mips(desc: &TextureDescriptor) -> Result<(), CreateTextureError>
    ensures { result ≡ outcome (mip_checks desc.now) }
{
    check_levels(desc)?;
    check_transient(desc)
}

fn check_format(features: Features, desc: &TextureDescriptor) -> Result<(), CreateTextureError>
    ensures { result ≡ outcome (format_checks features.0 desc.now) }
{
    let format_features = described(features, desc.format)?;
    check_multisampling(features, format_features.flags, desc)?;
    check_format_usage(features, desc)
}

// What the device may do with the format, if it has the feature that the format needs.
fn described(
    features: Features,
    format: TextureFormat,
) -> Result<TextureFormatFeatures, CreateTextureError>
    ensures { result ≡ answered (feature_checks features.0 format (required_features_of format)) (guaranteed_features format features.0) }
{
    describe_format_features(features, format).map_err(
        |missing| CreateTextureError::MissingFeatures(format, missing),
    )
}

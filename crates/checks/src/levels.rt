// The level count, and what the size has to be a multiple of.
ghost use Rattle.std.specs.Prelude.{◌≡◌, ◌≤◌};
ghost use Rattle.checks.specs.Check.{outcome};
ghost use Rattle.checks.specs.Checks.{level_checks, level_multiple};

use crate::error::{CreateTextureError, TextureDimensionError};
use types::descriptor::TextureDescriptor;
use types::format::TextureFormat;

pub(crate) fn check_levels(desc: &TextureDescriptor) -> Result<(), CreateTextureError>
    ensures { result ≡ outcome (level_checks desc.now) }
{
    let format = desc.format;
    let width = desc.size.width;
    let height = desc.size.height;
    let requested = desc.mip_level_count;
    let maximum = desc.size.max_mips(desc.dimension);
    if requested == 0 || requested > maximum {
        return Err(CreateTextureError::InvalidMipLevelCount { requested, maximum });
    }
    let (width_multiple, height_multiple) = level_multiple(format, requested);
    if !width.is_multiple_of(width_multiple) {
        let multiple = width_multiple;
        return Err(TextureDimensionError::WidthNotMultipleOf {
            width,
            multiple,
            format,
        }
        .into());
    }
    if !height.is_multiple_of(height_multiple) {
        let multiple = height_multiple;
        return Err(TextureDimensionError::HeightNotMultipleOf {
            height,
            multiple,
            format,
        }
        .into());
    }
    Ok(())
}

// What width and height have to be multiples of: each further level of a planar format doubles it.
fn level_multiple(format: TextureFormat, levels: u32) -> (u32, u32)
    requires { levels ≤ 16 }
    ensures { result ≡ level_multiple format levels }
{
    let (width, height) = format.size_multiple_requirement();
    if format.is_multi_planar_format() {
        let halvings = levels.saturating_sub(1);
        (width << halvings, height << halvings)
    } else {
        (width, height)
    }
}

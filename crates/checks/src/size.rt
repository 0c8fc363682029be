// The size and the sample count against the limits of the dimension.
ghost use Rattle.std.specs.Prelude.{◌≡◌};
ghost use Rattle.checks.specs.Check.{outcome};
ghost use Rattle.checks.specs.Checks.{extent_limits, sample_limit, axis_checks, sample_checks, size_checks};

use crate::error::{TextureDimensionError, TextureErrorDimension};
use types::dimension::TextureDimension;
use types::extent::Extent3d;
use types::limits::Limits;

// The greatest width, height, and depth or layers.
pub fn extent_limits(dimension: TextureDimension, limits: &Limits) -> (u32, u32, u32)
    ensures { result ≡ extent_limits dimension limits.now }
{
    match dimension {
        TextureDimension::D1 => (limits.max_texture_dimension_1d, 1, 1),
        TextureDimension::D2 => (
            limits.max_texture_dimension_2d,
            limits.max_texture_dimension_2d,
            limits.max_texture_array_layers,
        ),
        TextureDimension::D3 => (
            limits.max_texture_dimension_3d,
            limits.max_texture_dimension_3d,
            limits.max_texture_dimension_3d,
        ),
    }
}

fn sample_limit(dimension: TextureDimension) -> u32
    ensures { result ≡ sample_limit dimension }
{
    match dimension {
        TextureDimension::D2 => 32,
        TextureDimension::D1 | TextureDimension::D3 => 1,
    }
}

fn check_side(
    dim: TextureErrorDimension,
    given: u32,
    limit: u32,
) -> Result<(), TextureDimensionError>
    ensures { result ≡ outcome (axis_checks dim given limit) }
{
    if given == 0 {
        return Err(TextureDimensionError::Zero(dim));
    }
    if given > limit {
        return Err(TextureDimensionError::LimitExceeded { dim, given, limit });
    }
    Ok(())
}

fn check_sample_count(
    dimension: TextureDimension,
    sample_count: u32,
) -> Result<(), TextureDimensionError>
    ensures { result ≡ outcome (sample_checks dimension sample_count) }
{
    if sample_count == 0
        || sample_count > sample_limit(dimension)
        || !sample_count.is_power_of_two()
    {
        return Err(TextureDimensionError::InvalidSampleCount(sample_count));
    }
    Ok(())
}

pub fn check_texture_dimension_size(
    dimension: TextureDimension,
    size: Extent3d,
    sample_count: u32,
    limits: &Limits,
) -> Result<(), TextureDimensionError>
    ensures { result ≡ outcome (size_checks dimension size sample_count limits.now) }
{
    let (width, height, depth_or_array_layers) = extent_limits(dimension, limits);
    check_side(TextureErrorDimension::X, size.width, width)?;
    check_side(TextureErrorDimension::Y, size.height, height)?;
    check_side(
        TextureErrorDimension::Z,
        size.depth_or_array_layers,
        depth_or_array_layers,
    )?;
    check_sample_count(dimension, sample_count)
}

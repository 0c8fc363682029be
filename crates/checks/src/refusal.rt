// What the container is told of a refusal: a number, and the values that the error carries.
ghost use Rattle.std.specs.Prelude.{◌≡◌, ℕ, List};
ghost use Rattle.checks.specs.Refusals.{dimension_number, dimension_values, listed, side_code};
ghost use Rattle.checks.specs.Refusals.{number_of as create_number, values_of as create_values};

use crate::error::{
    CreateTextureError as Cte, TextureDimensionError as Tde, TextureErrorDimension as Ted,
};
use types::bits::BitSet;

// A refused request. The container knows its reason by a number, so the numbers stay beside the error enums.
pub trait Refusal {
    ghost number_of: { Self → ℕ };

    ghost values_of: { Self → List ℕ };

    fn number(&self) -> u32
        ensures { result ≡ number_of self.now };

    fn values(&self) -> Values
        ensures { listed result ≡ values_of self.now };
}

// What a refusal carries, as numbers: a format by its code, a side as 1 to 3, a dimension as 1 to 3, a yes as 1. None to three of
// them, held here and not on the heap, since nothing may allocate on the path of a call, and with no place left over to fill.
#[derive(Clone, Copy, Debug, PartialEq, Eq)]
pub enum Values {
    Nothing,
    One(u32),
    Two(u32, u32),
    Three(u32, u32, u32),
}

impl From<Ted> for u32 {
    ghost from_gives = { λ side code. code ≡ side_code side };

    fn from(side: Ted) -> u32 {
        match side {
            Ted::X => 1,
            Ted::Y => 2,
            Ted::Z => 3,
        }
    }
}

impl Refusal for Tde {
    ghost number_of = { dimension_number };

    ghost values_of = { dimension_values };

    fn number(&self) -> u32 {
        match self {
            Tde::Zero(_) => 4,
            Tde::LimitExceeded { .. } => 5,
            Tde::InvalidSampleCount(_) => 6,
            Tde::NotMultipleOfBlockWidth { .. } => 10,
            Tde::NotMultipleOfBlockHeight { .. } => 11,
            Tde::WidthNotMultipleOf { .. } => 14,
            Tde::HeightNotMultipleOf { .. } => 15,
            Tde::MultisampledDepthOrArrayLayer(_) => 20,
        }
    }

    fn values(&self) -> Values {
        match *self {
            Tde::Zero(dim) => Values::One(dim.into()),
            Tde::LimitExceeded { dim, given, limit } => Values::Three(dim.into(), given, limit),
            Tde::InvalidSampleCount(count) => Values::One(count),
            Tde::NotMultipleOfBlockWidth {
                width: w,
                block_width: b,
                format: f,
            } => Values::Three(w, b, f.into()),
            Tde::NotMultipleOfBlockHeight {
                height: h,
                block_height: b,
                format: f,
            } => Values::Three(h, b, f.into()),
            Tde::WidthNotMultipleOf {
                width: w,
                multiple: m,
                format: f,
            } => Values::Three(w, m, f.into()),
            Tde::HeightNotMultipleOf {
                height: h,
                multiple: m,
                format: f,
            } => Values::Three(h, m, f.into()),
            Tde::MultisampledDepthOrArrayLayer(layers) => Values::One(layers),
        }
    }
}

impl Refusal for Cte {
    ghost number_of = { create_number };

    ghost values_of = { create_values };

    fn number(&self) -> u32 {
        match self {
            Cte::InvalidUsage(_) => 3,
            Cte::InvalidDimension(error) => error.number(),
            Cte::InvalidDepthDimension(_, _) => 7,
            Cte::InvalidDimensionUsages(_, _) => 8,
            Cte::InvalidCompressedDimension(_, _) => 9,
            Cte::MissingFeatures(_, _) => 12,
            Cte::InvalidMipLevelCount { .. } => 13,
            Cte::InvalidTransientTextureUsage(_) => 16,
            Cte::InvalidTransientTextureMipLevelCount(_) => 17,
            Cte::InvalidTransientTextureLayerCount(_) => 18,
            Cte::InvalidTransientTextureViewFormats => 19,
            Cte::InvalidMultisampledStorageBinding => 21,
            Cte::MultisampledNotRenderAttachment => 22,
            Cte::InvalidMultisampledFormat(_) => 23,
            Cte::InvalidSampleCount(_, _, _) => 24,
            Cte::InvalidFormatUsages(_, _, _) => 25,
            Cte::InvalidViewFormat(_, _) => 26,
            Cte::MissingDownlevelFlags(_) => 27,
        }
    }

    fn values(&self) -> Values {
        match *self {
            Cte::InvalidUsage(usage) => Values::One(usage.bits()),
            Cte::InvalidDimension(error) => error.values(),
            Cte::InvalidDepthDimension(d, f) => Values::Two(d.into(), f.into()),
            Cte::InvalidDimensionUsages(usage, d) => Values::Two(usage.bits(), d.into()),
            Cte::InvalidCompressedDimension(d, f) => Values::Two(d.into(), f.into()),
            Cte::MissingFeatures(f, missing) => Values::Two(f.into(), missing.0.bits()),
            Cte::InvalidMipLevelCount {
                requested: r,
                maximum: m,
            } => Values::Two(r, m),
            Cte::InvalidTransientTextureUsage(usage) => Values::One(usage.bits()),
            Cte::InvalidTransientTextureMipLevelCount(levels) => Values::One(levels),
            Cte::InvalidTransientTextureLayerCount(layers) => Values::One(layers),
            Cte::InvalidTransientTextureViewFormats => Values::Nothing,
            Cte::InvalidMultisampledStorageBinding => Values::Nothing,
            Cte::MultisampledNotRenderAttachment => Values::Nothing,
            Cte::InvalidMultisampledFormat(f) => Values::One(f.into()),
            Cte::InvalidSampleCount(count, f, sum) => Values::Three(count, f.into(), sum),
            Cte::InvalidFormatUsages(missing, f, webgpu_allows) => Values::Three(
                missing.bits(),
                f.into(),
                u32::from(webgpu_allows),
            ),
            Cte::InvalidViewFormat(view_format, f) => Values::Two(view_format.into(), f.into()),
            Cte::MissingDownlevelFlags(missing) => Values::One(missing.0.bits()),
        }
    }
}

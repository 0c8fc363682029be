// Why a texture request is refused: wgpu's error enums, each case with what it carries there.
ghost use Rattle.std.specs.Prelude.{◌≡◌};
ghost use Rattle.checks.specs.declared.error.CreateTextureError.TheVariants.{InvalidDimension as Dimensional};

use types::dimension::TextureDimension;
use types::downlevel_flags::DownlevelFlags;
use types::features::MissingFeatures;
use types::format::TextureFormat;
use types::usages::TextureUsages;

// The side of a texture that a refusal speaks of: width, height, and depth or layers.
#[derive(Clone, Copy, Debug, PartialEq, Eq)]
pub enum TextureErrorDimension {
    X,
    Y,
    Z,
}

#[derive(Clone, Copy, Debug, PartialEq, Eq)]
pub enum TextureDimensionError {
    Zero(TextureErrorDimension),
    LimitExceeded {
        dim: TextureErrorDimension,
        given: u32,
        limit: u32,
    },
    InvalidSampleCount(u32),
    NotMultipleOfBlockWidth {
        width: u32,
        block_width: u32,
        format: TextureFormat,
    },
    NotMultipleOfBlockHeight {
        height: u32,
        block_height: u32,
        format: TextureFormat,
    },
    WidthNotMultipleOf {
        width: u32,
        multiple: u32,
        format: TextureFormat,
    },
    HeightNotMultipleOf {
        height: u32,
        multiple: u32,
        format: TextureFormat,
    },
    MultisampledDepthOrArrayLayer(u32),
}

// The downlevel flags that were required and that the device has not all: wgpu's error, as for features.
#[derive(Clone, Copy, Debug, PartialEq, Eq)]
pub struct MissingDownlevelFlags(pub DownlevelFlags);

#[derive(Clone, Copy, Debug, PartialEq, Eq)]
pub enum CreateTextureError {
    InvalidUsage(TextureUsages),
    InvalidDimension(TextureDimensionError),
    InvalidDepthDimension(TextureDimension, TextureFormat),
    InvalidDimensionUsages(TextureUsages, TextureDimension),
    InvalidCompressedDimension(TextureDimension, TextureFormat),
    MissingFeatures(TextureFormat, MissingFeatures),
    InvalidMipLevelCount { requested: u32, maximum: u32 },
    InvalidTransientTextureUsage(TextureUsages),
    InvalidTransientTextureMipLevelCount(u32),
    InvalidTransientTextureLayerCount(u32),
    InvalidTransientTextureViewFormats,
    InvalidMultisampledStorageBinding,
    MultisampledNotRenderAttachment,
    InvalidMultisampledFormat(TextureFormat),
    // the count, the format, and the sum of the counts that the format can have
    InvalidSampleCount(u32, TextureFormat, u32),
    // the usages that are not allowed, the format, and whether WebGPU would allow the whole usage
    InvalidFormatUsages(TextureUsages, TextureFormat, bool),
    InvalidViewFormat(TextureFormat, TextureFormat),
    MissingDownlevelFlags(MissingDownlevelFlags),
}

impl From<TextureDimensionError> for CreateTextureError {
    ghost from_gives = { λ e r. r ≡ Dimensional e };

    fn from(error: TextureDimensionError) -> CreateTextureError {
        CreateTextureError::InvalidDimension(error)
    }
}
